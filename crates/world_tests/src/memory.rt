ghost use Rattle.std.specs.Prelude.{◌≡◌, [], false, IfOk};
ghost use Rattle.fw_command.specs.WellFormed.{IsLine, IsScript};
ghost use Rattle.world_tests.specs.Lanes.{IsLaneAt};

use crate::configuration::{commands, configured};
use crate::pair::{Callers, close_pair, open_pair};
use crate::records::{EDITS, RULES};
use crate::sections::entered;
use crate::traffic::{SECOND, datagram, port};
use fw_base::{Link, OutOfMemory, Port};
use fw_command::{Line, Script};
use fw_world::{CommitFault, Skipped};
use ip6_headers::{AnyPacket, read_any};
use rule_edits::is_changing;
use shared_world::{Desk, Inside, Lane, LaneEntry, World};
use std::alloc::Global;
use std::process::Abort;
use std::sync::Wait;

/// How many packets each lane judges under each of the three editions.
const PACKETS: u32 = 2;

/// How many entries each lane has then, with one for a record that isn't judged.
const ENTRIES: usize = 7;

/// A world of two lanes with all that a run of it needs beside the memory that the world's own calls take.
#[derive(Drop)]
struct Small {
    world: World,
    callers: Callers,
    port: Port,
    edits: Script,
    list: Vec<Lane>,
}

/// What the calls answered that take memory.
#[derive(Clone, Copy)]
struct Told {
    /// Whether the lane has wanted memory.
    has_failed: [bool; 2],
    /// How many lanes and commits wanted memory that none wanted before.
    wants: u32,
}

impl Told {
    /// The lane's next record was entered, or wanted memory. It did where one before did.
    fn tell_record(&mut self, rt: &impl Abort, place: u32, wanted: bool) {
        let index = place.wrapping_sub(1) as usize;
        let Some(has_failed) = self.has_failed.get_mut(index) else {
            panic!(rt; "no such lane");
        };
        if *has_failed {
            assert!(rt; wanted);
        } else if wanted {
            *has_failed = true;
            self.wants = self.wants.wrapping_add(1);
        }
    }
}

/// The lane in its section; where it is refused it regains first.
fn admitted<R: Abort + Wait>(rt: &R, world: &World, lane: Lane, port: &Port) -> Inside
    requires lane { IsLaneAt world.now lane.place port.now lane }
    ensures lane { IsLaneAt world.now lane.place port.now result.lane }
    ensures fresh { result.judged ≡ false }
{
    match world.enter(lane) {
        LaneEntry::In(inside) => inside,
        LaneEntry::Revoked(lane, _) => match world.enter(world.regain(rt, lane)) {
            LaneEntry::In(inside) => inside,
            LaneEntry::Revoked(_, _) => panic!(rt; "refused while nobody writes"),
        },
    }
}

/// The lane is to judge its packet.
fn judge<R: Abort + Wait>(rt: &R, world: &World, lane: Lane, port: &Port, told: &mut Told) -> Lane
    requires lane { IsLaneAt world.now lane.place port.now lane }
    ensures lane { IsLaneAt world.now lane.place port.now result }
{
    let place = lane.place();
    let bytes = datagram(place as u8);
    let AnyPacket::Ip(packet) = read_any(Link::Raw, &bytes) else {
        panic!(rt; "a datagram that isn't read");
    };
    let inside = admitted(rt, world, lane, port);
    let (inside, outcome) = world.judge_in(rt, inside, &packet, port, SECOND);
    told.tell_record(rt, place, outcome.is_err());
    world.leave(inside)
}

/// Each lane judges its packets under the edition that is published.
fn judge_all<R: Abort + Wait>(
    rt: &R,
    world: &World,
    callers: Callers,
    port: &Port,
    told: &mut Told,
) -> Callers
    requires first { IsLaneAt world.now 1 port.now callers.first }
    requires second { IsLaneAt world.now 2 port.now callers.second }
    ensures first { IsLaneAt world.now 1 port.now result.first }
    ensures second { IsLaneAt world.now 2 port.now result.second }
    ensures desk { result.desk ≡ callers.desk }
{
    let Callers {
        mut first,
        mut second,
        desk,
    } = callers;
    for _ in 0..PACKETS {
        first = judge(rt, world, first, port, told);
        second = judge(rt, world, second, port, told);
    }
    Callers {
        first,
        second,
        desk,
    }
}

/// A lane enters a record that isn't judged.
fn skip(rt: &impl Abort, world: &World, lane: Lane, port: &Port, told: &mut Told) -> Lane
    requires lane { IsLaneAt world.now lane.place port.now lane }
    ensures lane { IsLaneAt world.now lane.place port.now result }
{
    let place = lane.place();
    let (lane, outcome) = world.skip(lane, Skipped::Other);
    told.tell_record(rt, place, outcome.is_err());
    lane
}

/// Publishes what the command of a line makes; or wants memory, and has published nothing.
fn commit<R: Abort + Wait>(
    rt: &R,
    alloc: Global,
    world: &World,
    desk: Desk,
    line: &Line,
) -> (Desk, bool)
    requires desk { desk.world ≡ world.now }
    requires line { IsLine line.now }
    ensures desk { (result.0.world ≡ world.now) × (result.0.lanes ≡ desk.lanes) }
{
    assert!(rt; is_changing(&line.command));
    let number = desk.number();
    let (desk, outcome) = world.commit(rt, alloc, desk, &line.command);
    match outcome {
        Ok(published) => {
            assert_eq!(rt;
                (published, desk.number()),
                (number.wrapping_add(1), published)
            );
            (desk, true)
        }
        Err(fault) => {
            assert_eq!(rt; (fault, desk.number()), (CommitFault::OutOfMemory, number));
            (desk, false)
        }
    }
}

/// Publishes what the command of a line makes, and answers whether memory was wanted for it: no lane is held up
/// then, and another try publishes it.
fn edit<R: Abort + Wait>(
    rt: &R,
    alloc: Global,
    world: &World,
    callers: Callers,
    port: &Port,
    line: &Line,
) -> (Callers, bool)
    requires first { IsLaneAt world.now 1 port.now callers.first }
    requires second { IsLaneAt world.now 2 port.now callers.second }
    requires desk { callers.desk.world ≡ world.now }
    requires line { IsLine line.now }
    ensures first { IsLaneAt world.now 1 port.now result.0.first }
    ensures second { IsLaneAt world.now 2 port.now result.0.second }
    ensures desk { (result.0.desk.world ≡ world.now)
        × (result.0.desk.lanes ≡ callers.desk.lanes) }
{
    let Callers {
        first,
        second,
        desk,
    } = callers;
    let (desk, published) = commit(rt, alloc, world, desk, line);
    if published {
        let callers = Callers {
            first,
            second,
            desk,
        };
        return (callers, false);
    }
    let first = world.leave(entered(rt, world, first, port));
    let (desk, published) = commit(rt, alloc, world, desk, line);
    assert!(rt; published);
    let callers = Callers {
        first,
        second,
        desk,
    };
    (callers, true)
}

/// The lanes judge packets under edition 1, and under each that the edits make; then each enters a record that
/// isn't judged.
fn small_run<R: Abort + Wait>(
    rt: &R,
    alloc: Global,
    world: &World,
    callers: Callers,
    port: &Port,
    edits: &Script,
) -> (Callers, Told)
    requires first { IsLaneAt world.now 1 port.now callers.first }
    requires second { IsLaneAt world.now 2 port.now callers.second }
    requires desk { callers.desk.world ≡ world.now }
    requires edits { IsScript edits.now }
    ensures first { IsLaneAt world.now 1 port.now result.0.first }
    ensures second { IsLaneAt world.now 2 port.now result.0.second }
    ensures desk { (result.0.desk.world ≡ world.now)
        × (result.0.desk.lanes ≡ callers.desk.lanes) }
{
    let mut told = Told {
        has_failed: [false; 2],
        wants: 0,
    };
    let mut callers = judge_all(rt, world, callers, port, &mut told);
    for line in edits.before.as_slice() {
        let (edited, wanted) = edit(rt, alloc, world, callers, port, line);
        told.wants = told.wants.wrapping_add(u32::from(wanted));
        callers = judge_all(rt, world, edited, port, &mut told);
    }
    let Callers {
        first,
        second,
        desk,
    } = callers;
    let first = skip(rt, world, first, port, &mut told);
    let second = skip(rt, world, second, port, &mut told);
    let callers = Callers {
        first,
        second,
        desk,
    };
    (callers, told)
}

/// The small world, as it opens.
fn opened(rt: &impl Abort, alloc: Global) -> Result<Small, OutOfMemory>
    ensures first { IfOk result (λ s. IsLaneAt s.world 1 s.port s.callers.first) }
    ensures second { IfOk result (λ s. IsLaneAt s.world 2 s.port s.callers.second) }
    ensures desk { IfOk result (λ s. (s.callers.desk.world ≡ s.world)
        × (s.callers.desk.lanes ≡ 2)) }
    ensures edits { IfOk result (λ s. IsScript s.edits) }
    ensures list { IfOk result (λ s. s.list.items ≡ []) }
{
    let port = port(alloc)?;
    let edits = commands(rt, alloc, EDITS)?;
    let list = Vec::with_capacity(alloc, 2)?;
    let config = configured(rt, alloc, RULES)?;
    let (world, callers) = open_pair(rt, alloc, config, Some(4), &port)?;
    Ok(Small {
        world,
        callers,
        port,
        edits,
        list,
    })
}

/// With ample memory nothing is wanted. Where one allocation is refused, one lane has failed, or one commit was
/// tried again, or the world wasn't opened; and the record is there exactly where no lane has failed.
#[test]
fn a_lane_that_wanted_memory_answers_so_again(rt: HostRuntime) {
    let Ok(small) = opened(&rt, rt.alloc()) else {
        return;
    };
    let Small {
        world,
        callers,
        port,
        edits,
        list,
    } = small;
    let (callers, told) = small_run(&rt, rt.alloc(), &world, callers, &port, &edits);
    assert!(rt; told.wants <= 1);
    match close_pair(world, callers, &port, list) {
        Ok(record) => {
            assert_eq!(rt; told.has_failed, [false; 2]);
            assert_eq!(rt; record.editions().len(), 3);
            for docket in record.dockets() {
                assert_eq!(rt; docket.entries().len(), ENTRIES);
            }
        }
        Err(OutOfMemory) => assert_ne!(rt; told.has_failed, [false; 2]),
    }
}
