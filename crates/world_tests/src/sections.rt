ghost use Rattle.std.specs.Prelude.{◌≡◌, ◌<◌, ◌^◌, length, false, IfOk, IsSome};
ghost use Rattle.fw_command.specs.WellFormed.{IsLine, IsScript};
ghost use Rattle.world_tests.specs.Lanes.{IsLaneAt};

use crate::traffic::SECOND;
use eval_engine::Judgement;
use fw_base::{Link, OutOfMemory, Port};
use fw_command::{Line, Script};
use fw_world::CommitFault;
use ip6_headers::{AnyPacket, read_any};
use rule_edits::is_changing;
use shared_world::{Desk, Inside, Lane, LaneEntry, World};
use std::alloc::Global;
use std::process::Abort;
use std::sync::Wait;

/// A section of the lane, which is let in.
pub(crate) fn entered(rt: &impl Abort, world: &World, lane: Lane, port: &Port) -> Inside
    requires lane { IsLaneAt world.now lane.place port.now lane }
    ensures lane { IsLaneAt world.now lane.place port.now result.lane }
    ensures fresh { result.judged ≡ false }
{
    match world.enter(lane) {
        LaneEntry::In(inside) => inside,
        LaneEntry::Revoked(_, _) => panic!(rt; "refused"),
    }
}

/// The lane judges this packet in its section, and leaves.
pub(crate) fn judged<R: Abort + Wait>(
    rt: &R,
    world: &World,
    inside: Inside,
    port: &Port,
    packet: &[u8],
) -> Result<(Lane, Judgement), OutOfMemory>
    requires lane { IsLaneAt world.now inside.lane.place port.now inside.lane }
    requires fresh { inside.judged ≡ false }
    requires packet { length packet.now < 2 ^ 32 }
    ensures lane { IfOk result (λ r. IsLaneAt world.now inside.lane.place port.now r.0) }
{
    let AnyPacket::Ip(packet) = read_any(Link::Raw, packet) else {
        panic!(rt; "a packet that isn't read");
    };
    let (inside, outcome) = world.judge_in(rt, inside, &packet, port, SECOND);
    let lane = world.leave(inside);
    let judgement = outcome?;
    Ok((lane, judgement))
}

/// The lane, which was refused with that number, regains it, and holds that number or a later one.
pub(crate) fn regained<R: Abort + Wait>(
    rt: &R,
    world: &World,
    lane: Lane,
    port: &Port,
    number: u64,
) -> Lane
    requires lane { IsLaneAt world.now lane.place port.now lane }
    requires refused { IsSome lane.refusal }
    ensures lane { IsLaneAt world.now lane.place port.now result }
{
    assert!(rt; lane.number() < number);
    let lane = world.regain(rt, lane);
    assert!(rt; lane.number() >= number);
    lane
}

/// Publishes what the command of a line makes.
fn publish<R: Abort + Wait>(
    rt: &R,
    alloc: Global,
    world: &World,
    desk: Desk,
    line: &Line,
) -> Result<Desk, OutOfMemory>
    requires desk { desk.world ≡ world.now }
    requires line { IsLine line.now }
    ensures desk { IfOk result (λ after. (after.world ≡ world.now) × (after.lanes ≡ desk.lanes)) }
{
    assert!(rt; is_changing(&line.command));
    let next = desk.number().wrapping_add(1);
    let (desk, outcome) = world.commit(rt, alloc, desk, &line.command);
    match outcome {
        Ok(number) => {
            assert_eq!(rt; (number, desk.number()), (next, next));
            Ok(desk)
        }
        Err(CommitFault::OutOfMemory) => Err(OutOfMemory),
        Err(CommitFault::Refused(_)) => panic!(rt; "a refused command"),
    }
}

/// Publishes what each command of the script makes, one after the other.
pub(crate) fn publish_all<R: Abort + Wait>(
    rt: &R,
    alloc: Global,
    world: &World,
    desk: Desk,
    script: &Script,
) -> Result<Desk, OutOfMemory>
    requires desk { desk.world ≡ world.now }
    requires script { IsScript script.now }
    ensures desk { IfOk result (λ after. (after.world ≡ world.now) × (after.lanes ≡ desk.lanes)) }
{
    let mut desk = desk;
    for line in script.before.as_slice() {
        desk = publish(rt, alloc, world, desk, line)?;
    }
    Ok(desk)
}
