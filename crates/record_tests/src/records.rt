ghost use Rattle.std.specs.Prelude.{◌≡◌, false, None, IfOk};
ghost use Rattle.std.specs.List.{AllByRecursion};
ghost use Rattle.fw_command.specs.WellFormed.{IsLine, IsStepInRange};
ghost use Rattle.serial_world.specs.Steps.{ChangesAsksOf};
ghost use Rattle.fw_world.specs.Caches.{capacity_of};
ghost use Rattle.fw_world.specs.World.{IsLaneOf};
ghost use Rattle.record_tests.specs.OneLane.{IsOneLane};

use fw_base::{Direction, Link, Name, Port};
use fw_command::{Line, Pace, Script, Step, parse_script};
use fw_report::write_report;
use fw_rule::Items;
use fw_world::{CommitFault, Record, Skipped};
use ip6_headers::{AnyIp, AnyPacket, read_any};
use memory_files::{MemorySink, MemorySource};
use record_laws::laws::{
    contents_determine_reports, listings_name_published_editions, replays_are_determined,
    replays_print_each_record,
};
use report_texts::{Answer, CaptureEnd, Ends, LineAnswer, Recorded};
use rows::{ROWS, Row, Timed};
use rule_chain::Config;
use rule_edits::{apply_owned, is_changing};
use serial_world::{OpenSerial, SerialDesk, SerialEntry, SerialInside, SerialLane, SerialWorld};
use std::alloc::Global;
use std::process::Abort;
use std::test::Fail;
use workstation::{RECORDS, SCRIPT, TEXT, replay};

mod packets;
mod rows;
mod workstation;

/// A world of one lane, and the answers so far.
#[derive(Drop)]
struct Live {
    world: SerialWorld,
    lane: SerialLane,
    desk: SerialDesk,
    answers: Vec<LineAnswer>,
}

/// The configuration behind these commands.
fn configured(alloc: Global, lines: &[Line]) -> Result<Config, Fail>
    requires { AllByRecursion IsLine lines.now }
{
    let mut config = Config::new(alloc)?;
    for line in lines {
        if is_changing(&line.command) {
            config = apply_owned(alloc, config, &line.command)?;
        }
    }
    Ok(config)
}

/// A world that shows these commands' configuration as edition 1.
fn opened(alloc: Global, lines: &[Line]) -> Result<Live, Fail>
    requires { AllByRecursion IsLine lines.now }
    ensures { IfOk result (λ live. IsOneLane live.world live.desk live.lane) }
{
    let config = configured(alloc, lines)?;
    let OpenSerial {
        world,
        mut lanes,
        desk,
    } = SerialWorld::open(alloc, config, 1, None)?;
    let lane = lanes.remove(0);
    Ok(Live {
        world,
        lane,
        desk,
        answers: Vec::new(alloc),
    })
}

/// Judges a packet within a section, and ends the section.
fn judge_inside(
    world: &mut SerialWorld,
    inside: SerialInside,
    packet: &AnyIp<'_>,
    port: &Port,
    second: u32,
) -> Result<SerialLane, Fail>
    requires of_world { IsLaneOf world.old inside.lane }
    requires fresh { inside.judged ≡ false }
    requires cacheless { capacity_of inside.lane.cache ≡ None }
    ensures of_world { IfOk result (λ lane. IsLaneOf world.new lane) }
    ensures place { IfOk result (λ lane. lane.place ≡ inside.lane.place) }
    ensures cacheless { IfOk result (λ lane. capacity_of lane.cache ≡ None) }
    ensures world { ChangesAsksOf inside.lane.place world.old world.new }
{
    let (inside, judgement) = world.judge_in(inside, packet, port, second);
    let _judged = judgement?;
    Ok(world.leave(inside))
}

/// Judges a packet in a section of its own. A lane that is refused regains and begins another one.
fn judge(
    world: &mut SerialWorld,
    lane: SerialLane,
    packet: &AnyIp<'_>,
    port: &Port,
    second: u32,
) -> Result<SerialLane, Fail>
    requires of_world { IsLaneOf world.old lane }
    requires cacheless { capacity_of lane.cache ≡ None }
    ensures of_world { IfOk result (λ after. IsLaneOf world.new after) }
    ensures place { IfOk result (λ after. after.place ≡ lane.place) }
    ensures cacheless { IfOk result (λ after. capacity_of after.cache ≡ None) }
    ensures world { ChangesAsksOf lane.place world.old world.new }
{
    let regained = match world.enter(lane) {
        SerialEntry::In(inside) => return judge_inside(world, inside, packet, port, second),
        SerialEntry::Revoked(refused, _number) => world.regain(refused),
    };
    match world.enter(regained) {
        SerialEntry::In(inside) => judge_inside(world, inside, packet, port, second),
        SerialEntry::Revoked(_refused, _number) => Err(Fail::from("refused twice")),
    }
}

/// Judges a packet of a raw capture that came in at em0.
fn judge_packet(
    rt: &impl Abort,
    live: Live,
    port: &Port,
    second: u32,
    bytes: &[u8],
) -> Result<Live, Fail>
    requires { IsOneLane live.world live.desk live.lane }
    ensures { IfOk result (λ after. IsOneLane after.world after.desk after.lane) }
{
    assert!(rt; bytes.len() < 65_536);
    let AnyPacket::Ip(packet) = read_any(Link::Raw, bytes) else {
        return Err(Fail::from("no packet"));
    };
    let Live {
        mut world,
        lane,
        desk,
        answers,
    } = live;
    let lane = judge(&mut world, lane, &packet, port, second)?;
    Ok(Live {
        world,
        lane,
        desk,
        answers,
    })
}

/// Judges these packets one after the other.
fn judge_all(rt: &impl Abort, live: Live, port: &Port, packets: &[Timed]) -> Result<Live, Fail>
    requires { IsOneLane live.world live.desk live.lane }
    ensures { IfOk result (λ after. IsOneLane after.world after.desk after.lane) }
{
    let mut live = live;
    for (second, bytes) in packets {
        live = judge_packet(rt, live, port, *second, bytes)?;
    }
    Ok(live)
}

/// Keeps the refusal of a command, if it was refused.
fn keep_refusal(
    answers: &mut Vec<LineAnswer>,
    line: u32,
    outcome: Result<u64, CommitFault>,
) -> Result<(), Fail> {
    match outcome {
        Ok(_number) => Ok(()),
        Err(CommitFault::Refused(fault)) => {
            let answer = Answer::Refused(fault);
            answers.push(LineAnswer { line, answer })?;
            Ok(())
        }
        Err(CommitFault::OutOfMemory) => Err(Fail::from("no memory")),
    }
}

/// Publishes what the command makes, or keeps its refusal.
fn run_line(alloc: Global, live: Live, line: &Line) -> Result<Live, Fail>
    requires formed { IsLine line.now }
    requires one { IsOneLane live.world live.desk live.lane }
    ensures { IfOk result (λ after. IsOneLane after.world after.desk after.lane) }
{
    if !is_changing(&line.command) {
        return Err(Fail::from("a listing"));
    }
    let Live {
        mut world,
        lane,
        desk,
        mut answers,
    } = live;
    let (desk, outcome) = world.commit(alloc, desk, &line.command);
    keep_refusal(&mut answers, line.line, outcome)?;
    Ok(Live {
        world,
        lane,
        desk,
        answers,
    })
}

/// Runs a command behind `live`, which waits for so many records.
fn run_step(
    rt: &impl Abort,
    alloc: Global,
    live: Live,
    step: &Step,
    records: usize,
) -> Result<Live, Fail>
    requires formed { IsStepInRange step.now }
    requires one { IsOneLane live.world live.desk live.lane }
    ensures { IfOk result (λ after. IsOneLane after.world after.desk after.lane) }
{
    match step {
        Step::Run(line) => run_line(alloc, live, line),
        Step::After(count) => {
            assert_eq!(rt; *count, records as u64);
            Ok(live)
        }
    }
}

/// Runs the commands behind `live`, which all wait for so many records.
fn run_steps(
    rt: &impl Abort,
    alloc: Global,
    live: Live,
    steps: &[Step],
    records: usize,
) -> Result<Live, Fail>
    requires formed { AllByRecursion IsStepInRange steps.now }
    requires one { IsOneLane live.world live.desk live.lane }
    ensures { IfOk result (λ after. IsOneLane after.world after.desk after.lane) }
{
    let mut live = live;
    for step in steps {
        live = run_step(rt, alloc, live, step, records)?;
    }
    Ok(live)
}

/// The report of a record, with its journal.
fn printed(
    rt: &impl Abort,
    alloc: Global,
    record: &Record,
    ends: &Ends,
) -> Result<MemorySink, Fail> {
    let mut out = MemorySink::new(alloc, 4096)?;
    assert!(rt; !record.editions().is_empty());
    let recorded = Recorded {
        editions: record.editions(),
        book: record.book(),
        dockets: record.dockets(),
        tallies: record.tallies(),
        trackers: record.trackers(),
        hits: record.hits(),
    };
    write_report(&recorded, ends, true, &mut out).or(Err("not written"))?;
    Ok(out)
}

/// The report of the world.
fn report(rt: &impl Abort, alloc: Global, live: Live, records: usize) -> Result<MemorySink, Fail>
    requires { IsOneLane live.world live.desk live.lane }
{
    let Live {
        world,
        lane,
        desk,
        answers,
    } = live;
    let record = world.close(vec![in alloc; lane]?, desk)?;
    let end = CaptureEnd::Read {
        records: records as u64,
    };
    let ends = Ends {
        captures: Items::from_vec(vec![in alloc; end]?),
        answers: Items::from_vec(answers),
    };
    printed(rt, alloc, &record, &ends)
}

/// Replays a row, and compares its report.
fn check(rt: &impl Abort, alloc: Global, row: &Row) -> Result<(), Fail> {
    let script = match parse_script(alloc, row.script.as_bytes(), Pace::Serial) {
        Ok(script) => script,
        Err(_) => return Err(Fail::from("no script")),
    };
    let Script {
        before,
        live: steps,
        ..
    } = script;
    let port = Port {
        direction: Direction::In,
        interface: Name::new(alloc, b"em0")?,
    };
    let first = row.first.len();
    let live = opened(alloc, before.as_slice())?;
    let live = judge_all(rt, live, &port, row.first)?;
    let live = run_steps(rt, alloc, live, steps.as_slice(), first)?;
    let live = judge_all(rt, live, &port, row.behind)?;
    let records = first.saturating_add(row.behind.len());
    let out = report(rt, alloc, live, records)?;
    assert_eq!(rt; out.written(), row.text.as_bytes(), "{}", row.name);
    Ok(())
}

/// How many records the first and the second of two lanes entered, where the second passed one over and the
/// lanes are closed in this order or the other.
fn entered_by_two(alloc: Global, turned: bool) -> Result<(usize, usize), Fail> {
    let OpenSerial {
        mut world,
        mut lanes,
        desk,
    } = SerialWorld::open(alloc, Config::new(alloc)?, 2, None)?;
    world.pass_over(&mut lanes[1], Skipped::Other)?;
    if turned {
        lanes.reverse();
    }
    let record = world.close(lanes, desk)?;
    match record.dockets() {
        [first, second] => Ok((first.entries().len(), second.entries().len())),
        _ => Err(Fail::from("not two dockets")),
    }
}

#[test]
fn rows_of_one_lane(rt: HostRuntime) -> Result<(), Fail> {
    for row in ROWS {
        check(&rt, rt.alloc(), row)?;
    }
    for turned in [false, true] {
        assert_eq!(rt; entered_by_two(rt.alloc(), turned)?, (0, 1));
    }
    Ok(())
}

#[test]
fn a_workstation_has_two_lanes(rt: HostRuntime) -> Result<(), Fail> {
    replay(&rt, rt.alloc(), SCRIPT, RECORDS, TEXT)
}

/// The laws of replays, at sources over memory.
#[test]
fn laws_of_replays() {
    replays_print_each_record::<MemorySource>();
    listings_name_published_editions::<MemorySource>();
    replays_are_determined::<MemorySource, MemorySource>();
    contents_determine_reports::<MemorySource, MemorySource>();
}
