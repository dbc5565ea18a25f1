ghost use Rattle.std.specs.Prelude.{◌≡◌, ◌≤◌, ◌<◌, ◌++◌, IfOk, vec_len, length};
ghost use Rattle.std.specs.List.{AllByRecursion};
ghost use Rattle.command_words.specs.declared.invocation.Mode.TheVariants as modes;
ghost use Rattle.fw_command.specs.WellFormed.{IsStepInRange};
ghost use Rattle.fw_world.specs.Caches.{IsCacheSize};
ghost use Rattle.replay_driver.specs.EditionReplay.{ReplaysEdition};

use capture_tracks::{OpenedCapture, Replayed};
use fw_base::{Gate, MOST_CAPTURES, OutOfMemory, Source};
use fw_rule::Items;
use live_replay::{Runner, replay_live};
use replay_setup::FirstEdition;
use report_texts::{Ends, LineAnswer};
use serial_replay::replay_serial;
use std::alloc::Global;
use std::sync::Wait;
use std::thread::Threads;

/// What was replayed, with the answers of the listings before `live` before those behind it.
fn with_answers<S: Drop>(
    first: Items<LineAnswer>,
    replayed: Replayed<S>,
) -> Result<Replayed<S>, OutOfMemory>
    ensures { IfOk result (λ with. with ≡ record replayed {
      ends = record replayed.ends {
        answers = first ++ replayed.ends.answers;
      };
    }) }
{
    let Replayed {
        record,
        ends,
        sources,
    } = replayed;
    let Ends {
        captures,
        answers: behind,
    } = ends;
    let mut answers = first.into_vec();
    let mut more = behind.into_vec();
    answers.append(&mut more)?;
    let ends = Ends {
        captures,
        answers: Items::from_vec(answers),
    };
    Ok(Replayed {
        record,
        ends,
        sources,
    })
}

/// Replays 1 to 16 captures beside an edition 1 and what stands behind `live`, one record or command after the other, in
/// the order of the schedule. Each capture's lane has a cache for so many verdicts, 1 to 65,536, or none has one.
pub(crate) fn replay_in_turn<S: Source>(
    alloc: Global,
    first: FirstEdition,
    cache: Option<u32>,
    opened: Vec<OpenedCapture<S>>,
) -> Result<Replayed<S>, OutOfMemory>
    requires captures { (1 ≤ vec_len opened) × (vec_len opened ≤ MOST_CAPTURES) }
    requires cache { IsCacheSize cache }
    requires steps { AllByRecursion IsStepInRange first.live }
    ensures replays { IfOk result (ReplaysEdition S.left S.faults modes.Serial first cache
        opened.items) }
    ensures reportable { IfOk result (λ replayed. 0 < length replayed.record.editions) }
{
    let FirstEdition {
        config,
        answers,
        live,
    } = first;
    let replayed = replay_serial(alloc, config, live.as_slice(), cache, opened)?;
    with_answers(answers, replayed)
}

/// Replays 1 to 16 captures, each by a thread of its own, beside one that runs the commands behind `live`.
pub(crate) fn replay_at_once<S: Source + Send, R: Threads + Wait + Sync, G: Gate + Sync>(
    runner: Runner<'_, R, G>,
    alloc: Global,
    first: FirstEdition,
    cache: Option<u32>,
    opened: Vec<OpenedCapture<S>>,
) -> Result<Replayed<S>, OutOfMemory>
    requires captures { (1 ≤ vec_len opened) × (vec_len opened ≤ MOST_CAPTURES) }
    requires cache { IsCacheSize cache }
    requires steps { AllByRecursion IsStepInRange first.live }
    ensures replays { IfOk result (ReplaysEdition S.left S.faults modes.Live first cache
        opened.items) }
    ensures reportable { IfOk result (λ replayed. 0 < length replayed.record.editions) }
{
    let FirstEdition {
        config,
        answers,
        live,
    } = first;
    let replayed = replay_live(runner, alloc, config, live.as_slice(), cache, opened)?;
    with_answers(answers, replayed)
}
