ghost use Rattle.std.specs.Prelude.{◌≡◌, ◌<◌, ◌≤◌, ◌∷◌, IfOk, map, length, vec_len};
ghost use Rattle.std.specs.List.{AllByRecursion};
ghost use Rattle.command_words.specs.Invocation.{capture_names};
ghost use Rattle.fw_command.specs.WellFormed.{IsStepInRange};
ghost use Rattle.fw_world.specs.Caches.{IsCacheSize};
ghost use Rattle.replay_driver.specs.EditionReplay.{ReplaysEdition};
ghost use Rattle.replay_driver.specs.FilesReplay.{ReportsReady};
ghost use Rattle.replay_driver.specs.declared.run_result.RunResult.TheVariants as results;
ghost use Rattle.replay_driver.specs.Found.{FindsReplay};
ghost use Rattle.replay_driver.specs.RunResult.{IsWritable};

use crate::edition_replay::{replay_at_once, replay_in_turn};
use crate::manner::Manner;
use crate::run_result::{Found, RunResult};
use capture_tracks::{OpenedCapture, Replayed};
use command_words::{CaptureWord, Mode};
use fw_base::{Gate, Library, MOST_CAPTURES, OutOfMemory, Source};
use live_replay::Runner;
use replay_setup::{FirstEdition, LibraryView, Readiness, Ready, make_ready};
use std::alloc::Global;
use std::sync::Wait;
use std::thread::Threads;

/// The report of what was replayed, with the script's source before the captures'.
fn report_replayed<S: Drop>(
    script: S,
    journal: bool,
    replayed: Replayed<S>,
) -> Result<Found<S>, OutOfMemory>
    ensures { IfOk result (λ found.
        (found.result ≡ results.Reported replayed.record replayed.ends journal)
        × (found.sources.items ≡ script ∷ replayed.sources.items)) }
{
    let Replayed {
        record: kept,
        ends,
        mut sources,
    } = replayed;
    sources.insert(0, script)?;
    Ok(Found {
        result: RunResult::Reported {
            kept,
            ends,
            journal,
        },
        sources,
    })
}

/// Replays captures beside an edition 1 and what stands behind `live`, in the mode that is asked for.
fn replay_in_mode<S: Source + Send, R: Threads + Wait + Sync, G: Gate + Sync>(
    runner: Runner<'_, R, G>,
    alloc: Global,
    manner: Manner,
    first: FirstEdition,
    opened: Vec<OpenedCapture<S>>,
) -> Result<Replayed<S>, OutOfMemory>
    requires captures { (1 ≤ vec_len opened) × (vec_len opened ≤ MOST_CAPTURES) }
    requires cache { IsCacheSize manner.cache }
    requires steps { AllByRecursion IsStepInRange first.live }
    ensures replays { IfOk result (ReplaysEdition S.left S.faults manner.mode first manner.cache
        opened.items) }
    ensures reportable { IfOk result (λ replayed. 0 < length replayed.record.editions) }
{
    match manner.mode {
        Mode::Serial => replay_in_turn(alloc, first, manner.cache, opened),
        Mode::Live => replay_at_once(runner, alloc, first, manner.cache, opened),
    }
}

/// Replays what is ready.
fn replay_ready<S: Source + Send, R: Threads + Wait + Sync, G: Gate + Sync>(
    runner: Runner<'_, R, G>,
    alloc: Global,
    manner: Manner,
    ready: Ready<S>,
) -> Result<Found<S>, OutOfMemory>
    requires captures { (1 ≤ length ready.captures.items)
        × (length ready.captures.items ≤ MOST_CAPTURES) }
    requires cache { IsCacheSize manner.cache }
    requires steps { AllByRecursion IsStepInRange ready.first.live }
    ensures writable { IfOk result (λ found. IsWritable found.result) }
    ensures reports { IfOk result (λ found. ReportsReady S.left S.faults manner ready
        found.result found.sources.items) }
{
    let Ready {
        script,
        first,
        captures,
    } = ready;
    let replayed = replay_in_mode(runner, alloc, manner, first, captures)?;
    report_replayed(script, manner.journal, replayed)
}

/// Opens and reads what the words name, 1 to 16 captures beside a script, and replays it.
pub(crate) fn replay_files<L: Library, R: Threads + Wait + Sync, G: Gate + Sync>(
    runner: Runner<'_, R, G>,
    alloc: Global,
    manner: Manner,
    script: &[u8],
    captures: &[CaptureWord<'_>],
    library: &mut L,
) -> Result<Found<L::Reader>, OutOfMemory>
where
    L::Reader: Send,
    requires captures { (1 ≤ length captures.now) × (length captures.now ≤ MOST_CAPTURES) }
    requires cache { IsCacheSize manner.cache }
    ensures writable { IfOk result (λ found. IsWritable found.result) }
    ensures finds { IfOk result (λ found.
        FindsReplay ⟦<L as LibraryView>⟧.files
        (record {
          mode = manner.mode;
          journal = manner.journal;
          cache = manner.cache;
          script = script.now;
          captures = map capture_names captures.now;
        })
        library.old library.new found.result found.sources.items) }
{
    match make_ready(alloc, manner.mode, script, captures, library)? {
        Readiness::Unread(name, sources) => Ok(Found {
            result: RunResult::Unread(name),
            sources,
        }),
        Readiness::NoEdition(error, sources) => Ok(Found {
            result: RunResult::Unready(error),
            sources,
        }),
        Readiness::Ready(ready) => replay_ready(runner, alloc, manner, ready),
    }
}
