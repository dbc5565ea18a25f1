ghost use Rattle.std.specs.Prelude.{◌<◌, ◌≤◌, ◌^◌, IfOk, length};
ghost use Rattle.fw_world.specs.Caches.{IsPortFor};
ghost use Rattle.fw_world.specs.Inputs.{Packet};
ghost use Rattle.fw_world.specs.Skips.{skipped_input};
ghost use Rattle.live_replay.specs.Posted.{IsPosted, AdmitsLane, TakesInput};
ghost use Rattle.capture_tracks.specs.Taken.{taken_input};

use capture_tracks::Taken;
use fw_base::{Gate, OutOfMemory, Port};
use fw_world::Skipped;
use ip6_headers::{AnyIp, AnyPacket, read_any};
use pcap_read::MOST_RECORD_BYTES;
use shared_world::{Inside, Lane, LaneEntry, World};
use std::sync::Wait;

/// A packet that a lane meets: which record of the capture it is, where it was captured, and at which second.
#[derive(Drop)]
struct Met<'a> {
    at: u64,
    packet: &'a AnyIp<'a>,
    port: &'a Port,
    second: u32,
}

/// Does nothing, and says that a u64 is the lane's number: so a refusal can raise it only so often.
fn number_fits(lane: &Lane)
    ensures { lane.now.number < 2 ^ 64 }
{
    let _number = lane.number();
}

/// The lane in a section. Where it is refused it regains and tries again: at most once for each edition.
fn admitted<R: Wait>(rt: &R, world: &World, lane: Lane) -> Inside
    requires { IsPosted world.now lane }
    ensures { AdmitsLane world.now lane result }
{
    let mut lane = lane;
    loop {
        number_fits(&lane);
        match world.enter(lane) {
            LaneEntry::In(inside) => return inside,
            LaneEntry::Revoked(refused, _number) => lane = world.regain(rt, refused),
        }
    }
}

/// Judges a packet in a section of the lane. The section is left whether memory was wanted or not.
fn judge<R: Wait, G: Gate>(
    rt: &R,
    world: &World,
    gate: &G,
    lane: Lane,
    met: Met<'_>,
) -> Result<Lane, OutOfMemory>
    requires posted { IsPosted world.now lane }
    requires port { IsPortFor lane.cache met.port.now }
    ensures { IfOk result
        (TakesInput world.now
        (Packet met.entry.packet.now met.entry.port.now met.entry.second) lane) }
{
    let place = lane.place();
    let inside = admitted(rt, world, lane);
    gate.inside(place, met.at);
    let (inside, outcome) = world.judge_in(rt, inside, met.packet, met.port, met.second);
    let lane = world.leave(inside);
    let _judgement = outcome?;
    Ok(lane)
}

/// Enters a record that isn't judged.
fn skip(world: &World, lane: Lane, entry: Skipped) -> Result<Lane, OutOfMemory>
    requires { IsPosted world.now lane }
    ensures { IfOk result (TakesInput world.now (skipped_input entry) lane) }
{
    let (lane, outcome) = world.skip(lane, entry);
    outcome?;
    Ok(lane)
}

/// The lane meets the next record of its capture.
pub(crate) fn meet<R: Wait, G: Gate>(
    rt: &R,
    world: &World,
    gate: &G,
    lane: Lane,
    taken: Taken<'_>,
) -> Result<Lane, OutOfMemory>
    requires posted { IsPosted world.now lane }
    requires port { IsPortFor lane.cache taken.port.now }
    requires small { length taken.record.bytes.now ≤ MOST_RECORD_BYTES }
    ensures { IfOk result (TakesInput world.now (taken_input taken.entry) lane) }
{
    let Taken {
        at,
        link,
        port,
        record,
    } = taken;
    gate.before(lane.place(), at);
    match &read_any(link, record.bytes) {
        AnyPacket::Ip(packet) => {
            let met = Met {
                at,
                packet,
                port,
                second: record.second,
            };
            judge(rt, world, gate, lane, met)
        }
        AnyPacket::Other => skip(world, lane, Skipped::Other),
        AnyPacket::Malformed(kind) => skip(world, lane, Skipped::Malformed(*kind)),
    }
}
