ghost use Rattle.std.specs.Prelude.{◌≡◌, ◌≤◌, IfOk, map, vec_len};
ghost use Rattle.std.specs.List.{AllByRecursion, zip};
ghost use Rattle.capture_tracks.specs.Replay.{IsReplay};
ghost use Rattle.fw_command.specs.WellFormed.{IsStepInRange};
ghost use Rattle.fw_world.specs.Caches.{IsCacheSize};
ghost use Rattle.live_replay.specs.Crew.{CanClose, Closes, tasks_of, lanes_of, sources_of, ends_of};

use crate::crew::{Crew, Relieved};
use crate::operator::Operator;
use crate::runner::Runner;
use crate::task::{Finished, Task};
use capture_tracks::{OpenedCapture, Replayed, limit_for};
use fw_base::{Gate, MOST_CAPTURES, OutOfMemory, Source};
use fw_command::Step;
use fw_rule::Items;
use report_texts::{CaptureEnd, Ends};
use rule_chain::Config;
use shared_world::{Lane, OpenWorld, World};
use std::alloc::Global;
use std::sync::Wait;
use std::thread::Threads;

/// A task for each capture, of which at most `limit` records are read, and its lane.
fn open_tasks<S: Drop>(
    alloc: Global,
    captures: Vec<OpenedCapture<S>>,
    limit: u32,
    lanes: Vec<Lane>,
) -> Result<Vec<Task<S>>, OutOfMemory>
    ensures { IfOk result (λ tasks. tasks.items ≡ tasks_of limit captures.items lanes.items) }
{
    let mut tasks = Vec::with_capacity(alloc, captures.len())?;
    for (opened, lane) in captures.into_iter().zip(lanes) {
        tasks.push(Task {
            opened,
            limit,
            lane,
        })?;
    }
    Ok(tasks)
}

/// The lanes of those that finished, their sources, and how their captures ended.
fn taken_apart<S: Drop>(
    alloc: Global,
    finished: Vec<Finished<S>>,
) -> Result<(Vec<Lane>, Vec<S>, Vec<CaptureEnd>), OutOfMemory>
    ensures lanes { IfOk result (λ apart. apart.0.items ≡ lanes_of finished.items) }
    ensures sources { IfOk result (λ apart. apart.1.items ≡ sources_of finished.items) }
    ensures ends { IfOk result (λ apart. apart.2.items ≡ ends_of finished.items) }
{
    let mut lanes = Vec::with_capacity(alloc, finished.len())?;
    let mut sources = Vec::with_capacity(alloc, finished.len())?;
    let mut ends = Vec::with_capacity(alloc, finished.len())?;
    for done in finished {
        let Finished { lane, source, end } = done;
        lanes.push(lane)?;
        sources.push(source)?;
        ends.push(end)?;
    }
    Ok((lanes, sources, ends))
}

/// Closes the world of a crew that is done.
fn close<S: Source>(
    alloc: Global,
    world: World,
    relieved: Relieved<S>,
) -> Result<Replayed<S>, OutOfMemory>
    requires { CanClose world relieved }
    ensures { IfOk result (Closes relieved) }
{
    let Relieved { finished, operator } = relieved;
    let Operator { desk, answers } = operator;
    let (lanes, sources, ends) = taken_apart(alloc, finished)?;
    let record = world.close(lanes, desk)?;
    let ends = Ends {
        captures: Items::from_vec(ends),
        answers: Items::from_vec(answers),
    };
    Ok(Replayed {
        record,
        ends,
        sources,
    })
}

/// Replays 1 to 16 captures beside the commands behind `live`: each capture is read to its end or its fault by
/// a thread of its own, whatever the others meet, while another one runs the commands in their order. Which
/// edition a packet meets is free, but for what each replay keeps. The gate is told of each record before its lane
/// takes it, and again while the lane is in a section with it, and of each command before it is committed. Each
/// lane has a cache for so many verdicts, 1 to 65,536, or none has one.
pub fn replay_live<S: Source + Send, G: Gate + Sync, R: Threads + Wait + Sync>(
    runner: Runner<'_, R, G>,
    alloc: Global,
    config: Config,
    steps: &[Step],
    cache: Option<u32>,
    captures: Vec<OpenedCapture<S>>,
) -> Result<Replayed<S>, OutOfMemory>
    requires some { 1 ≤ vec_len captures }
    requires few { vec_len captures ≤ MOST_CAPTURES }
    requires cache { IsCacheSize cache }
    requires steps { AllByRecursion IsStepInRange steps.now }
    ensures { IfOk result (IsReplay S.left S.faults config steps.now cache captures.items) }
{
    let Runner { rt, gate } = runner;
    let count = captures.len() as u32;
    let limit = limit_for(count);
    let OpenWorld { world, lanes, desk } = World::open(alloc, config, count, cache)?;
    let crew = Crew {
        tasks: open_tasks(alloc, captures, limit, lanes)?,
        operator: Operator {
            desk,
            answers: Vec::new(alloc),
        },
    };
    let relieved = crew.run(rt, alloc, &world, gate, steps)?;
    close(alloc, world, relieved)
}
