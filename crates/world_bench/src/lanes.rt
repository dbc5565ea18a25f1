ghost use Rattle.std.specs.Prelude.{◌≡◌, None, IfOk};
ghost use Rattle.fw_world.specs.Caches.{IsPortFor};

use crate::traffic::{datagram, port};
use anyhow::{Result, bail};
use bench_times::nanoseconds;
use fw_base::{Link, OutOfMemory, Port};
use ip6_headers::{AnyIp, AnyPacket, read_any};
use shared_world::{Lane, LaneEntry, World};
use std::alloc::Global;
use std::sync::Wait;
use std::time::{Clock, Instant};

/// So many sections of a lane, in each of which it judges a packet of its own host. Answers their nanoseconds.
pub fn sections<R: Clock + Wait>(
    rt: &R,
    alloc: Global,
    world: &World,
    lane: Lane,
    count: u32,
) -> Result<u64>
    requires lane { lane.world ≡ world.now }
    requires cache { lane.cache ≡ None }
{
    let port = port(alloc)?;
    let bytes = datagram(lane.place() as u8);
    let AnyPacket::Ip(packet) = read_any(Link::Raw, &bytes) else {
        bail!("a datagram that isn't read");
    };
    let mut lane = lane;
    let start = Instant::now(rt)?;
    for _index in 0..count {
        lane = section(rt, world, lane, &packet, &port)?;
    }
    Ok(nanoseconds(rt, start)?)
}

/// One section: enter, judge, leave. Where the lane is refused it regains.
fn section<R: Wait>(
    rt: &R,
    world: &World,
    lane: Lane,
    packet: &AnyIp<'_>,
    port: &Port,
) -> Result<Lane, OutOfMemory>
    requires lane { lane.world ≡ world.now }
    requires port { IsPortFor lane.cache port.now }
    ensures lane { IfOk result (λ after. after.world ≡ world.now) }
    ensures port { IfOk result (λ after. IsPortFor after.cache port.now) }
{
    match world.enter(lane) {
        LaneEntry::In(inside) => {
            let (inside, judged) = world.judge_in(rt, inside, packet, port, 1);
            let lane = world.leave(inside);
            let _judgement = judged?;
            Ok(lane)
        }
        LaneEntry::Revoked(lane, _) => Ok(world.regain(rt, lane)),
    }
}
