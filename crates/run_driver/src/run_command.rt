ghost use Rattle.std.specs.Prelude.{◌≡◌, ◌⊎◌, None, IfSome, map, string_bytes};
ghost use Rattle.command_words.specs.Words.{command_of};
ghost use Rattle.replay_driver.specs.Run.{IsNoCommand, IsRunOf};
ghost use Rattle.replay_driver.specs.Served.{job_of};
ghost use Rattle.audit_driver.specs.AuditNames.{names_of};
ghost use Rattle.audit_driver.specs.Printed.{IsPrintedAudit};
ghost use Rattle.audit_driver.specs.Run.{IsAuditRun};
ghost use Rattle.run_driver.specs.RunPromises.{KeepsPromises};

use audit_driver::{AuditWords, audit};
use command_words::{Invocation, read_words};
use fw_base::{Gate, Library, OutOfMemory, Sink};
use replay_setup::{LibraryView, Outcome, SinkView};
use std::alloc::Global;
use std::sync::Wait;
use std::thread::Threads;

/// Carries out the command that the words are, or writes the usage line.
fn run_words<R: Threads + Wait + Sync, L: Library, K: Sink, G: Gate + Sync>(
    rt: &R,
    alloc: Global,
    words: &[String],
    library: &mut L,
    out: &mut K,
    gate: &G,
) -> Outcome<L::Reader>
where
    L::Reader: Send + Sync,
    ensures usage { command_of (map string_bytes words.now) ≡ None
        → IsNoCommand ⟦<K as SinkView>⟧.output library.old library.new out.old out.new result }
    ensures replay { IfSome (job_of (map string_bytes words.now)) (λ job.
        IsRunOf ⟦<K as SinkView>⟧.output ⟦<L as LibraryView>⟧.files
        job library.old library.new out.old out.new result) }
    ensures audit { IfSome (names_of (map string_bytes words.now)) (λ names.
        IsAuditRun ⟦<K as SinkView>⟧.output ⟦<L as LibraryView>⟧.files
        names library.old library.new out.old out.new result) }
{
    match read_words(alloc, words) {
        Err(OutOfMemory) => Outcome::out_of_memory(alloc),
        Ok(
            Some(
                Invocation::Audit {
                    report,
                    script,
                    captures,
                },
            ),
        ) => {
            let words = AuditWords {
                report,
                script,
                captures: &captures,
            };
            audit(alloc, words, library, out)
        }
        Ok(Some(Invocation::Replay { .. } | Invocation::Load(_)) | None) => {
            replay_driver::run(rt, alloc, words, library, out, gate)
        }
    }
}

/// Carries out the command that the words are, an audit among them, or writes the usage line.
///
/// The status is `replay_driver::run`'s or, of an audit, `audit`'s.
pub fn run<R: Threads + Wait + Sync, L: Library, K: Sink, G: Gate + Sync>(
    rt: &R,
    alloc: Global,
    words: &[String],
    library: &mut L,
    out: &mut K,
    gate: &G,
) -> Outcome<L::Reader>
where
    L::Reader: Send + Sync,
    // Which words, scripts, captures and reports come to what: exactly.
    ensures usage { command_of (map string_bytes words.now) ≡ None
        → IsNoCommand ⟦<K as SinkView>⟧.output library.old library.new out.old out.new result }
    ensures replay { IfSome (job_of (map string_bytes words.now)) (λ job.
        IsRunOf ⟦<K as SinkView>⟧.output ⟦<L as LibraryView>⟧.files
        job library.old library.new out.old out.new result) }
    ensures audit { IfSome (names_of (map string_bytes words.now)) (λ names.
        IsAuditRun ⟦<K as SinkView>⟧.output ⟦<L as LibraryView>⟧.files
        names library.old library.new out.old out.new result) }

    // The headline of a replay or a load, each status with its cause, openings, completeness: what
    // `replay_driver::run` promises.
    ensures promises { IfSome (job_of (map string_bytes words.now)) (λ job.
        KeepsPromises ⟦<K as SinkView>⟧.output ⟦<L as LibraryView>⟧.files
        job library.old library.new out.old out.new result) }

    // Of what a replay prints, with its journal and without a cache, an audit says yes, or memory
    // ran out.
    ensures accepts { IfSome (names_of (map string_bytes words.now)) (λ names.
        IsPrintedAudit ⟦<K as SinkView>⟧.output ⟦<L as LibraryView>⟧.files
        names library.old library.new out.old out.new result
        → (result.status ≡ 0) ⊎ (result.status ≡ 6)) }
{
    run_words(rt, alloc, words, library, out, gate)
}
