ghost use Rattle.std.specs.Prelude.{◌≡◌, IfOk};
ghost use Rattle.std.specs.Thread.{IsSync};
ghost use Rattle.fw_world.specs.Caches.{IsCacheSize};
ghost use Rattle.world_tests.specs.Lanes.{IsLaneAt};

use crate::configuration::configured;
use crate::pair::{Callers, close_pair, open_pair};
use crate::records::{EDITS, NOTHING_DONE, RULES, Work, check_record};
use crate::sections::publish_all;
use crate::traffic::{datagram, port};
use crate::workers::{Worker, turn};
use fw_base::{OutOfMemory, Port};
use fw_command::{Pace, parse_script};
use shared_world::{Desk, Lane, World};
use std::alloc::Global;
use std::process::Abort;
use std::sync::Wait;
use std::test::Fail;
use std::thread::{Threads, join};

/// The packets that each of two lanes judges, how often the two edits are made beside them, and the cache of
/// each lane.
const ROWS: [(u64, u32, Option<u32>); 5] = [
    (400, 0, None),
    (400, 5, None),
    (200, 20, None),
    (400, 10, Some(4)),
    (50, 40, Some(1)),
];

/// A row of these.
#[derive(Clone, Copy)]
struct Row {
    packets: u64,
    times: u32,
    cache: Option<u32>,
}

/// The lane judges so many packets. It is refused at most once for each of so many publications.
fn all_packets<R: Abort + Wait>(
    rt: &R,
    world: &World,
    lane: Lane,
    port: &Port,
    packets: u64,
    publications: u64,
) -> Result<Worker, OutOfMemory>
    requires lane { IsLaneAt world.now lane.place port.now lane }
    ensures lane { IfOk result (λ w. IsLaneAt world.now lane.place port.now w.lane) }
{
    let packet = datagram(lane.place() as u8);
    let mut worker = Worker {
        lane,
        work: NOTHING_DONE,
    };
    for _ in 0..packets.wrapping_add(publications) {
        if worker.work.judged < packets {
            worker = turn(rt, world, worker, port, &packet)?;
        }
    }
    assert_eq!(rt; worker.work.judged, packets);
    Ok(worker)
}

/// Makes the edits so many times.
fn all_publications<R: Abort + Wait>(
    rt: &R,
    alloc: Global,
    world: &World,
    desk: Desk,
    times: u32,
) -> Result<Desk, OutOfMemory>
    requires desk { desk.world ≡ world.now }
    ensures desk { IfOk result (λ after. (after.world ≡ world.now) × (after.lanes ≡ desk.lanes)) }
{
    let Ok(edits) = parse_script(alloc, EDITS.as_bytes(), Pace::Serial) else {
        panic!(rt; "a script's fault");
    };
    let mut desk = desk;
    for _ in 0..times {
        desk = publish_all(rt, alloc, world, desk, &edits)?;
    }
    Ok(desk)
}

/// Each lane judges its packets in a thread of its own.
fn both_lanes<R: Threads + Abort + Wait + Sync>(
    rt: &R,
    world: &World,
    lanes: (Lane, Lane),
    port: &Port,
    packets: u64,
    publications: u64,
) -> Result<(Worker, Worker), OutOfMemory>
    requires first { IsLaneAt world.now 1 port.now lanes.0 }
    requires second { IsLaneAt world.now 2 port.now lanes.1 }
    ensures first { IfOk result (λ w. IsLaneAt world.now 1 port.now w.0.lane) }
    ensures second { IfOk result (λ w. IsLaneAt world.now 2 port.now w.1.lane) }
{
    let (first, second) = lanes;
    let (first, second) = join(
        rt,
        move || -> Result<Worker, OutOfMemory>
            requires { IsLaneAt world.now 1 port.now first }
            ensures { IfOk result (λ w. IsLaneAt world.entry.now 1 port.entry.now w.lane) }
        { all_packets(rt, world, first, port, packets, publications) },
        move || -> Result<Worker, OutOfMemory>
            requires { IsLaneAt world.now 2 port.now second }
            ensures { IfOk result (λ w. IsLaneAt world.entry.now 2 port.entry.now w.lane) }
        { all_packets(rt, world, second, port, packets, publications) },
    );
    Ok((first?, second?))
}

/// Both lanes judge their packets, beside the publications. Answers the callers and what the lanes did.
fn lanes_beside_publications<R: Threads + Abort + Wait + Sync>(
    rt: &R,
    alloc: Global,
    world: &World,
    callers: Callers,
    port: &Port,
    row: Row,
) -> Result<(Callers, [Work; 2]), OutOfMemory>
    requires first { IsLaneAt world.now 1 port.now callers.first }
    requires second { IsLaneAt world.now 2 port.now callers.second }
    requires desk { callers.desk.world ≡ world.now }
    ensures first { IfOk result (λ r. IsLaneAt world.now 1 port.now r.0.first) }
    ensures second { IfOk result (λ r. IsLaneAt world.now 2 port.now r.0.second) }
    ensures desk { IfOk result (λ r. (r.0.desk.world ≡ world.now)
        × (r.0.desk.lanes ≡ callers.desk.lanes)) }
{
    let Callers {
        first,
        second,
        desk,
    } = callers;
    let Row {
        packets,
        times,
        cache: _,
    } = row;
    let publications = u64::from(times).wrapping_mul(2);
    let (workers, desk) = join(
        rt,
        move || -> Result<(Worker, Worker), OutOfMemory>
            requires { IsSync R.row × IsLaneAt world.now 1 port.now first
                × IsLaneAt world.now 2 port.now second }
            ensures { IfOk result (λ w. IsLaneAt world.entry.now 1 port.entry.now w.0.lane
                × IsLaneAt world.entry.now 2 port.entry.now w.1.lane) }
        { both_lanes(rt, world, (first, second), port, packets, publications) },
        move || -> Result<Desk, OutOfMemory>
            requires { desk.world ≡ world.now }
            ensures { IfOk result (λ after. (after.world ≡ world.entry.now)
                × (after.lanes ≡ desk.lanes)) }
        { all_publications(rt, alloc, world, desk, times) },
    );
    let (first, second) = workers?;
    let callers = Callers {
        first: first.lane,
        second: second.lane,
        desk: desk?,
    };
    Ok((callers, [first.work, second.work]))
}

/// One row: its world is opened, its packets are judged, and its record compared.
fn check_row<R: Threads + Abort + Wait + Sync>(rt: &R, alloc: Global, row: Row) -> Result<(), Fail>
    requires cache { IsCacheSize row.cache }
{
    let port = port(alloc)?;
    let config = configured(rt, alloc, RULES)?;
    let (world, callers) = open_pair(rt, alloc, config, row.cache, &port)?;
    let (callers, works) = lanes_beside_publications(rt, alloc, &world, callers, &port, row)?;
    let record = close_pair(world, callers, &port, Vec::new(alloc))?;
    for work in works {
        assert_eq!(rt; work.judged, row.packets);
        assert_eq!(rt; work.judged.checked_add(work.refused), Some(work.sections));
    }
    let published = u64::from(row.times).wrapping_mul(2).wrapping_add(1);
    check_record(rt, &record, &works, published, row.cache.is_some());
    Ok(())
}

#[test]
fn lanes_regain_beside_publications(rt: HostRuntime) -> Result<(), Fail> {
    for (packets, times, cache) in ROWS {
        let row = Row {
            packets,
            times,
            cache,
        };
        check_row(&rt, rt.alloc(), row)?;
    }
    Ok(())
}
