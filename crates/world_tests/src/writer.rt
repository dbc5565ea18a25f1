ghost use Rattle.std.specs.Prelude.{◌≡◌, false, IfOk};
ghost use Rattle.std.specs.Thread.{IsSync};
ghost use Rattle.fw_command.specs.WellFormed.{IsScript};
ghost use Rattle.world_tests.specs.Lanes.{IsLaneAt};

use crate::configuration::{commands, configured};
use crate::pair::{Callers, close_pair, open_pair};
use crate::records::{NOTHING_DONE, RULES, check_lane, check_two_editions, judgement_under};
use crate::sections::{entered, judged, publish_all, regained};
use crate::traffic::{datagram, port};
use crate::waits::{LOOKS, wait_for};
use crate::workers::{Worker, turn};
use fw_base::{OutOfMemory, Port};
use fw_command::Script;
use shared_world::{Desk, Inside, Lane, LaneEntry, World};
use std::alloc::Global;
use std::process::Abort;
use std::sync::Wait;
use std::sync::atomic::{AtomicU32, Ordering};
use std::test::Fail;
use std::thread::{Threads, join, yield_now};

/// A section in which nothing is judged, or the refusal that the writer of edition 2 is to blame for. Answers
/// whether it was that, and regains then.
fn try_section<R: Abort + Wait>(
    rt: &R,
    world: &World,
    worker: Worker,
    port: &Port,
    refused: &AtomicU32,
) -> (Worker, bool)
    requires lane { IsLaneAt world.now worker.lane.place port.now worker.lane }
    ensures lane { IsLaneAt world.now worker.lane.place port.now result.0.lane }
{
    let Worker { lane, mut work } = worker;
    work.sections = work.sections.wrapping_add(1);
    match world.enter(lane) {
        LaneEntry::In(inside) => {
            let lane = world.leave(inside);
            (Worker { lane, work }, false)
        }
        LaneEntry::Revoked(lane, seen) => {
            assert_eq!(rt; (lane.number(), seen), (1, 2));
            refused.store(1, Ordering::SeqCst);
            work.refused = work.refused.wrapping_add(1);
            let lane = regained(rt, world, lane, port, seen);
            assert_eq!(rt; lane.number(), 2);
            (Worker { lane, work }, true)
        }
    }
}

/// The lane begins sections until it is refused, says so, and waits for the writer; then it judges a packet.
fn meet_the_writer<R: Abort + Wait>(
    rt: &R,
    world: &World,
    worker: Worker,
    port: &Port,
    refused: &AtomicU32,
) -> Result<Worker, OutOfMemory>
    requires lane { IsLaneAt world.now worker.lane.place port.now worker.lane }
    ensures lane { IfOk result (λ w. IsLaneAt world.now worker.lane.place port.now w.lane) }
{
    let packet = datagram(worker.lane.place() as u8);
    let mut worker = worker;
    for _ in 0..LOOKS {
        let (after, was_refused) = try_section(rt, world, worker, port, refused);
        if was_refused {
            return turn(rt, world, after, port, &packet);
        }
        worker = after;
        yield_now();
    }
    panic!(rt; "no writer came");
}

/// The lane stays in its section until the other lane was refused, and judges a packet in it then: so the writer
/// has begun, and waits. Then it meets the writer itself.
fn hold_the_writer<R: Abort + Wait>(
    rt: &R,
    world: &World,
    inside: Inside,
    port: &Port,
    refused: &AtomicU32,
) -> Result<Worker, OutOfMemory>
    requires lane { IsLaneAt world.now 1 port.now inside.lane }
    requires fresh { inside.judged ≡ false }
    ensures lane { IfOk result (λ w. IsLaneAt world.now 1 port.now w.lane) }
{
    wait_for(rt, refused, 1);
    let (lane, judgement) = judged(rt, world, inside, port, &datagram(1))?;
    assert_eq!(rt; judgement, judgement_under(1));
    let mut work = NOTHING_DONE;
    work.sections = 1;
    work.judged = 1;
    meet_the_writer(rt, world, Worker { lane, work }, port, refused)
}

/// The first lane holds up the writer; the second meets it.
fn both_lanes<R: Threads + Abort + Wait + Sync>(
    rt: &R,
    world: &World,
    inside: Inside,
    second: Lane,
    port: &Port,
) -> Result<(Worker, Worker), OutOfMemory>
    requires first { IsLaneAt world.now 1 port.now inside.lane }
    requires fresh { inside.judged ≡ false }
    requires second { IsLaneAt world.now 2 port.now second }
    ensures first { IfOk result (λ w. IsLaneAt world.now 1 port.now w.0.lane) }
    ensures second { IfOk result (λ w. IsLaneAt world.now 2 port.now w.1.lane) }
{
    let refused = &AtomicU32::new(0);
    let second = Worker {
        lane: second,
        work: NOTHING_DONE,
    };
    let (first, second) = join(
        rt,
        move || -> Result<Worker, OutOfMemory>
            requires { IsLaneAt world.now 1 port.now inside.lane × (inside.judged ≡ false) }
            ensures { IfOk result (λ w. IsLaneAt world.entry.now 1 port.entry.now w.lane) }
        { hold_the_writer(rt, world, inside, port, refused) },
        move || -> Result<Worker, OutOfMemory>
            requires { IsLaneAt world.now 2 port.now second.lane }
            ensures { IfOk result (λ w. IsLaneAt world.entry.now 2 port.entry.now w.lane) }
        { meet_the_writer(rt, world, second, port, refused) },
    );
    Ok((first?, second?))
}

/// Both lanes beside the publication of edition 2.
fn lanes_beside_the_writer<R: Threads + Abort + Wait + Sync>(
    rt: &R,
    alloc: Global,
    world: &World,
    callers: Callers,
    port: &Port,
    edit: &Script,
) -> Result<(Worker, Worker, Desk), OutOfMemory>
    requires first { IsLaneAt world.now 1 port.now callers.first }
    requires second { IsLaneAt world.now 2 port.now callers.second }
    requires desk { callers.desk.world ≡ world.now }
    requires edit { IsScript edit.now }
    ensures first { IfOk result (λ r. IsLaneAt world.now 1 port.now r.0.lane) }
    ensures second { IfOk result (λ r. IsLaneAt world.now 2 port.now r.1.lane) }
    ensures desk { IfOk result (λ r. (r.2.world ≡ world.now) × (r.2.lanes ≡ callers.desk.lanes)) }
{
    let Callers {
        first,
        second,
        desk,
    } = callers;
    let inside = entered(rt, world, first, port);
    let (workers, desk) = join(
        rt,
        move || -> Result<(Worker, Worker), OutOfMemory>
            requires { IsSync R.row × IsLaneAt world.now 1 port.now inside.lane
                × (inside.judged ≡ false) × IsLaneAt world.now 2 port.now second }
            ensures { IfOk result (λ w. IsLaneAt world.entry.now 1 port.entry.now w.0.lane
                × IsLaneAt world.entry.now 2 port.entry.now w.1.lane) }
        { both_lanes(rt, world, inside, second, port) },
        move || -> Result<Desk, OutOfMemory>
            requires { (desk.world ≡ world.now) × IsScript edit.now }
            ensures { IfOk result (λ after. (after.world ≡ world.entry.now)
                × (after.lanes ≡ desk.lanes)) }
        { publish_all(rt, alloc, world, desk, edit) },
    );
    let (first, second) = workers?;
    Ok((first, second, desk?))
}

#[test]
fn a_lane_regains_behind_the_writer(rt: HostRuntime) -> Result<(), Fail> {
    let alloc = rt.alloc();
    let port = port(alloc)?;
    let config = configured(&rt, alloc, RULES)?;
    let edit = commands(&rt, alloc, "delete 100\n")?;
    let (world, callers) = open_pair(&rt, alloc, config, None, &port)?;
    let (first, second, desk) = lanes_beside_the_writer(&rt, alloc, &world, callers, &port, &edit)?;
    let (of_first, of_second) = (first.work, second.work);
    let callers = Callers {
        first: first.lane,
        second: second.lane,
        desk,
    };
    let record = close_pair(world, callers, &port, Vec::new(alloc))?;
    check_lane(&rt, &record, 1, of_first, &[1, 2]);
    check_lane(&rt, &record, 2, of_second, &[2]);
    check_two_editions(&rt, &record);
    assert_eq!(rt; (of_first.refused, of_second.refused), (1, 1));
    Ok(())
}
