ghost use Rattle.std.specs.Prelude.{◌≡◌, None, [], IfSome, ◌≢◌, ◌⊎◌, IfNone, IfOk, OnOk, ◌≤◌, map, string_bytes, take, length, true};
ghost use Rattle.std.specs.List.{list_any};
ghost use Rattle.fw_base.specs.Faults.{Rose};
ghost use Rattle.fw_base.specs.Texts.{WritesText};
ghost use Rattle.replay_driver.specs.Found.{FindsWords};
ghost use Rattle.replay_setup.specs.Openings.{pairs_without};
ghost use Rattle.replay_driver.specs.Promises.{IsKept, IsUnreadJob, IsUnreadyJob, IsQuiet, HasRefusedCommand, IsFaulty, IsCompleteJob, opening_order};
ghost use Rattle.replay_setup.specs.FailedReads.{HasFailedRead};
ghost use Rattle.replay_driver.specs.Run.{IsNoCommand, IsRunOf, IsFoundRun};
ghost use Rattle.replay_driver.specs.RunResult as results;
ghost use Rattle.replay_driver.specs.Served.{job_of};

use crate::files_replay::replay_files;
use crate::manner::Manner;
use crate::pieced_text::write_pieced;
use crate::replay_load::replay_load;
use crate::run_result::{Found, RunResult, without_sources};
use buffered_io::PIECE_BYTES;
use command_words::{Invocation, read_words};
use core::mem::replace_with;
use fw_base::{Gate, Library, OutOfMemory, Sink};
use live_replay::Runner;
use replay_setup::{LibraryView, Outcome, SinkView, status_written};
use std::alloc::{AllocError, Global};
use std::sync::Wait;
use std::thread::Threads;

/// An empty buffer for a piece of text.
fn piece_buffer(alloc: Global) -> Result<Vec<u8>, AllocError>
    ensures { IfOk result (λ buffer. buffer.items ≡ []) }
{
    Vec::with_capacity(alloc, PIECE_BYTES)
}

/// Writes what was found, in pieces. All memory is taken before the first byte.
fn report<S: Drop, K: Sink>(alloc: Global, found: Found<S>, out: &mut K) -> Outcome<S>
    requires { results.IsWritable found.result }
    ensures { IsFoundRun ⟦<K as SinkView>⟧.output found out.old out.new result }
{
    let Ok(buffer) = piece_buffer(alloc) else {
        return Outcome::out_of_memory(alloc);
    };
    let Found { result, sources } = found;
    let written = replace_with(out, (buffer, &result), write_pieced);
    let status = status_written(result.status(), written);
    let (kept, ends) = result.into_parts(alloc);
    Outcome {
        status,
        ends,
        kept,
        sources,
    }
}

/// Carries out what the words ask for.
fn find<R: Threads + Wait + Sync, L: Library, G: Gate + Sync>(
    rt: &R,
    alloc: Global,
    words: &[String],
    library: &mut L,
    gate: &G,
) -> Result<Found<L::Reader>, OutOfMemory>
where
    L::Reader: Send,
    ensures writable { IfOk result (λ found. results.IsWritable found.result) }
    ensures finds { IfOk result (λ found.
        FindsWords ⟦<L as LibraryView>⟧.files
        (job_of (map string_bytes words.now)) library.old library.new found.result found.sources.items) }
{
    match read_words(alloc, words)? {
        Some(
            Invocation::Replay {
                mode,
                journal,
                cache,
                script,
                captures,
            },
        ) => replay_files(
            Runner { rt, gate },
            alloc,
            Manner {
                mode,
                journal,
                cache,
            },
            script,
            &captures,
            library,
        ),
        Some(Invocation::Load(records)) => Ok(without_sources(alloc, replay_load(alloc, records)?)),
        Some(Invocation::Audit { .. }) | None => { Ok(without_sources(alloc, RunResult::Usage)) }
    }
}

/// Runs the command that the words are, or writes the usage line.
fn run_words<R: Threads + Wait + Sync, L: Library, K: Sink, G: Gate + Sync>(
    rt: &R,
    alloc: Global,
    words: &[String],
    library: &mut L,
    out: &mut K,
    gate: &G,
) -> Outcome<L::Reader>
where
    L::Reader: Send,
    ensures usage { job_of (map string_bytes words.now) ≡ None
        → IsNoCommand ⟦<K as SinkView>⟧.output library.old library.new out.old out.new result }
    ensures found { IfSome (job_of (map string_bytes words.now)) (λ job.
        IsRunOf ⟦<K as SinkView>⟧.output ⟦<L as LibraryView>⟧.files
        job library.old library.new out.old out.new result) }
{
    match find(rt, alloc, words, library, gate) {
        Err(OutOfMemory) => Outcome::out_of_memory(alloc),
        Ok(found) => report(alloc, found, out),
    }
}

/// Replays the captures that the words name beside the script that they name, or a load, and writes the
/// report, or the summary, in pieces of 64 KiB. Nothing stays in a buffer.
///
/// The words are `serial|live [--journal] [--cache N] [--] SCRIPT in|out:IF:CAPTURE ..`, with 1 to 16 captures and N
/// from 1 to 65,536, or `load [--] N`. In live mode each capture is replayed by a thread of its own, beside one that
/// runs the commands behind `live`.
/// The status is 0; 1 where the words are no command; 2 where a script line isn't read or its command is
/// refused; 3 where a capture has a fault; 4 where a name could not be opened or read, or a capture's source
/// failed; 5 where the sink failed; 6 where memory ran out.
pub fn run<R: Threads + Wait + Sync, L: Library, K: Sink, G: Gate + Sync>(
    rt: &R,
    alloc: Global,
    words: &[String],
    library: &mut L,
    out: &mut K,
    gate: &G,
) -> Outcome<L::Reader>
where
    L::Reader: Send + Sync,
    // Which words, scripts and captures come to what: exactly.
    ensures usage { job_of (map string_bytes words.now) ≡ None
        → IsNoCommand ⟦<K as SinkView>⟧.output library.old library.new out.old out.new result }
    ensures found { IfSome (job_of (map string_bytes words.now)) (λ job.
        IsRunOf ⟦<K as SinkView>⟧.output ⟦<L as LibraryView>⟧.files
        job library.old library.new out.old out.new result) }

    // The headline: where a record is kept, it is the legal one of the script and the captures that the words
    // name, in serial mode in the order of the schedule, and its report is what the sink took; of a load, its summary.
    ensures report { IfSome result.kept (λ kept.
        IfSome (job_of (map string_bytes words.now)) (λ job.
        IsKept ⟦<K as SinkView>⟧.output ⟦<L as LibraryView>⟧.files
        job library.old library.new out.old out.new result kept)) }

    // Each status only where its cause is.
    ensures status_0_cause { result.status ≡ 0 → IsQuiet result }
    ensures status_1_cause { result.status ≡ 1 → job_of (map string_bytes words.now) ≡ None }
    ensures status_2_before { result.status ≡ 2 → IfNone result.kept
        (IfSome (job_of (map string_bytes words.now)) (λ job.
        IsUnreadyJob ⟦<K as SinkView>⟧.output ⟦<L as LibraryView>⟧.files
        job library.old library.new out.old out.new result)) }
    ensures status_2_with_record { result.status ≡ 2
        → IfSome result.kept (λ _. HasRefusedCommand result) }
    ensures status_3_cause { result.status ≡ 3 → IsFaulty result }
    ensures status_4_before { result.status ≡ 4 → IfNone result.kept
        (IfSome (job_of (map string_bytes words.now)) (λ job.
        IsUnreadJob ⟦<K as SinkView>⟧.output ⟦<L as LibraryView>⟧.files
        job library.old library.new out.old out.new result)) }
    ensures status_4_with_record { result.status ≡ 4
        → IfSome result.kept (λ _. HasFailedRead result.ends.captures) }
    ensures status_5_cause { result.status ≡ 5
        → Rose (K.state out.old).faults (K.state out.new).faults }
    ensures status_6_silent { result.status ≡ 6 → out.new ≡ out.old }

    // The names are opened in their order, once each, and no other is; with status 1 and for a load none.
    ensures openings { IfSome (L.pairs library.old) (λ pairs.
        IfSome (job_of (map string_bytes words.now)) (λ job. result.status ≢ 6 → L.pairs library.new
        ≡ pairs_without (take (length result.sources.items) (opening_order job)) pairs)) }
    ensures nothing_opened { job_of (map string_bytes words.now) ≡ None → result.status ≢ 6
        → library.new ≡ library.old }
    ensures no_second_try { IfSome result.kept (λ _. L.faults library.new ≡ L.faults library.old) }

    // Where all is as it should be, and memory is there, the status is 0.
    ensures complete { IfSome (job_of (map string_bytes words.now)) (λ job.
        IsCompleteJob ⟦<K as SinkView>⟧.output ⟦<L as LibraryView>⟧.files
        job library.old library.new out.old out.new result
        → (result.status ≡ 0) ⊎ (result.status ≡ 6)) }
{
    run_words(rt, alloc, words, library, out, gate)
}
