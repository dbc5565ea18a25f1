ghost use Rattle.std.specs.Prelude.{◌≡◌, IfOk, IsSome};
ghost use Rattle.world_tests.specs.Lanes.{IsLaneAt};

use crate::configuration::{commands, configured};
use crate::records::{RULES, Work, check_lane, check_two_editions, judgement_under};
use crate::sections::{entered, judged, publish_all, regained};
use crate::traffic::{datagram, port};
use fw_base::Port;
use fw_world::Record;
use rule_chain::Config;
use shared_world::{Desk, Lane, LaneEntry, OpenWorld, World};
use std::alloc::Global;
use std::process::Abort;
use std::test::Fail;

/// Who calls a world of one lane.
#[derive(Drop)]
struct Single {
    world: World,
    lane: Lane,
    desk: Desk,
}

fn open_single(rt: &impl Abort, alloc: Global, config: Config, port: &Port) -> Result<Single, Fail>
    ensures lane { IfOk result (λ s. IsLaneAt s.world 1 port.now s.lane) }
    ensures desk { IfOk result (λ s. (s.desk.world ≡ s.world) × (s.desk.lanes ≡ 1)) }
{
    let OpenWorld {
        world,
        mut lanes,
        desk,
    } = World::open(alloc, config, 1, None)?;
    match lanes.pop() {
        Some(lane) => Ok(Single { world, lane, desk }),
        None => panic!(rt; "no lane"),
    }
}

/// The record of a world of one lane.
fn close_single(
    alloc: Global,
    world: World,
    lane: Lane,
    desk: Desk,
    port: &Port,
) -> Result<Record, Fail>
    requires lane { IsLaneAt world 1 port.now lane }
    requires desk { (desk.world ≡ world) × (desk.lanes ≡ 1) }
{
    let mut lanes = Vec::with_capacity(alloc, 1)?;
    lanes.push_reserved(lane);
    Ok(world.close(lanes, desk)?)
}

/// The lane is refused with that number.
fn refused(rt: &impl Abort, world: &World, lane: Lane, port: &Port, number: u64) -> Lane
    requires lane { IsLaneAt world.now lane.place port.now lane }
    ensures lane { IsLaneAt world.now lane.place port.now result }
    ensures refused { IsSome result.refusal }
{
    match world.enter(lane) {
        LaneEntry::In(_) => panic!(rt; "let in"),
        LaneEntry::Revoked(lane, seen) => {
            assert_eq!(rt; seen, number);
            lane
        }
    }
}

#[test]
fn lock_of_one_processor(rt: HostRuntime) -> Result<(), Fail> {
    let alloc = rt.alloc();
    let port = port(alloc)?;
    let config = configured(&rt, alloc, RULES)?;
    let Single { world, lane, desk } = open_single(&rt, alloc, config, &port)?;
    let lane = world.leave(entered(&rt, &world, lane, &port));
    let edit = commands(&rt, alloc, "delete 100\n")?;
    let desk = publish_all(&rt, alloc, &world, desk, &edit)?;
    let lane = refused(&rt, &world, lane, &port, 2);
    let lane = regained(&rt, &world, lane, &port, 2);
    assert_eq!(rt; lane.number(), 2);
    let inside = entered(&rt, &world, lane, &port);
    let (lane, judgement) = judged(&rt, &world, inside, &port, &datagram(1))?;
    assert_eq!(rt; judgement, judgement_under(2));
    let record = close_single(alloc, world, lane, desk, &port)?;
    let work = Work {
        sections: 3,
        refused: 1,
        judged: 1,
    };
    check_lane(&rt, &record, 1, work, &[2]);
    check_two_editions(&rt, &record);
    Ok(())
}
