ghost use Rattle.std.specs.Prelude.{◌≡◌, IfOk};
ghost use Rattle.world_tests.specs.Lanes.{IsLaneAt};

use crate::records::{Work, judgement_under};
use crate::sections::{judged, regained};
use fw_base::{OutOfMemory, Port};
use shared_world::{Lane, LaneEntry, World};
use std::process::Abort;
use std::sync::Wait;

/// A lane, and what it did.
#[derive(Drop)]
pub(crate) struct Worker {
    pub(crate) lane: Lane,
    pub(crate) work: Work,
}

/// A section in which the lane judges its packet; or, where it is refused, a wait for its token.
pub(crate) fn turn<R: Abort + Wait>(
    rt: &R,
    world: &World,
    worker: Worker,
    port: &Port,
    packet: &[u8; 28],
) -> Result<Worker, OutOfMemory>
    requires lane { IsLaneAt world.now worker.lane.place port.now worker.lane }
    ensures lane { IfOk result (λ w. IsLaneAt world.now worker.lane.place port.now w.lane) }
{
    let Worker { lane, mut work } = worker;
    work.sections = work.sections.wrapping_add(1);
    let number = lane.number();
    let lane = match world.enter(lane) {
        LaneEntry::In(inside) => {
            let (lane, judgement) = judged(rt, world, inside, port, packet)?;
            assert_eq!(rt; judgement, judgement_under(number));
            work.judged = work.judged.wrapping_add(1);
            lane
        }
        LaneEntry::Revoked(lane, seen) => {
            work.refused = work.refused.wrapping_add(1);
            regained(rt, world, lane, port, seen)
        }
    };
    Ok(Worker { lane, work })
}
