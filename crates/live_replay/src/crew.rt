ghost use Rattle.std.specs.Prelude.{◌≡◌, All, IfOk, Ok, map};
ghost use Rattle.std.specs.List.{AllByRecursion};
ghost use Rattle.fw_command.specs.Steps.{all_lines};
ghost use Rattle.fw_command.specs.WellFormed.{IsStepInRange};
ghost use Rattle.live_replay.specs.Crew.{EachFinishes};
ghost use Rattle.live_replay.specs.Operating.{RunsLines};
ghost use Rattle.live_replay.specs.Work.{IsReady, Finishes};

use crate::operator::Operator;
use crate::task::{Finished, Task};
use fw_base::{Gate, OutOfMemory, Source};
use fw_command::Step;
use shared_world::World;
use std::alloc::Global;
use std::sync::Wait;
use std::thread::{Threads, join, map_vec};

/// Who replays: a task for each worker, and the operator.
#[derive(Drop)]
pub(crate) struct Crew<S> {
    pub(crate) tasks: Vec<Task<S>>,
    pub(crate) operator: Operator,
}

/// What a crew leaves.
#[derive(Drop)]
pub(crate) struct Relieved<S> {
    pub(crate) finished: Vec<Finished<S>>,
    pub(crate) operator: Operator,
}

/// All results, where each task was finished.
fn all_finished<S: Drop>(
    alloc: Global,
    results: Vec<Result<Finished<S>, OutOfMemory>>,
) -> Result<Vec<Finished<S>>, OutOfMemory>
    ensures { IfOk result (λ finished. results.items ≡ map Ok finished.items) }
{
    let mut all = Vec::with_capacity(alloc, results.len())?;
    for result in results {
        let finished = result?;
        all.push(finished)?;
    }
    Ok(all)
}

/// Carries out each task in a thread of its own. Where one wants memory, the others come to their ends.
fn work_all<S: Source + Send, R: Threads + Wait + Sync, G: Gate + Sync>(
    rt: &R,
    alloc: Global,
    world: &World,
    gate: &G,
    tasks: Vec<Task<S>>,
) -> Result<Vec<Finished<S>>, OutOfMemory>
    requires { All (IsReady world.now) tasks.items }
    ensures { IfOk result (λ finished.
        EachFinishes S.left S.faults world.now tasks.items finished.items) }
{
    let work = |task: Task<S>| -> Result<Finished<S>, OutOfMemory>
        requires { IsReady world.now task }
        ensures { IfOk result (Finishes S.left S.faults world.entry.now task) }
    { task.carry_out(rt, alloc, world, gate) };
    let results = map_vec(rt, tasks, &work)?;
    all_finished(alloc, results)
}

impl<S: Source + Send> Crew<S> {
    /// The workers carry out their tasks while the operator runs the steps.
    pub(crate) fn run<R: Threads + Wait + Sync, G: Gate + Sync>(
        self,
        rt: &R,
        alloc: Global,
        world: &World,
        gate: &G,
        steps: &[Step],
    ) -> Result<Relieved<S>, OutOfMemory>
        requires tasks { All (IsReady world.now) self.tasks.items }
        requires formed { AllByRecursion IsStepInRange steps.now }
        requires desk { self.operator.desk.world ≡ world.now }
        ensures finished { IfOk result (λ relieved.
            EachFinishes S.left S.faults world.now self.tasks.items relieved.finished.items) }
        ensures lines { IfOk result (λ relieved.
            RunsLines self.operator relieved.operator (all_lines steps.now)) }
    {
        let Crew { tasks, operator } = self;
        let (finished, operator) = join(
            rt,
            move || -> Result<Vec<Finished<S>>, OutOfMemory>
                requires { All (IsReady world.now) tasks.items }
                ensures { IfOk result (λ finished.
                    EachFinishes S.left S.faults world.entry.now tasks.items finished.items) }
            { work_all(rt, alloc, world, gate, tasks) },
            move || -> Result<Operator, OutOfMemory>
                requires { AllByRecursion IsStepInRange steps.now × (operator.desk.world ≡ world.now) }
                ensures { IfOk result (λ new.
                    RunsLines operator new (all_lines steps.entry.now)) }
            { operator.run_all(rt, alloc, world, gate, steps) },
        );
        Ok(Relieved {
            finished: finished?,
            operator: operator?,
        })
    }
}
