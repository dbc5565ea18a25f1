ghost use Rattle.std.specs.Prelude.{◌≡◌, ◌≤◌, None, IfSome, map, string_bytes};
ghost use Rattle.replay_driver.specs.Run.{IsNoCommand, IsRunOf};
ghost use Rattle.replay_driver.specs.Served.{IsSerialJob, job_of};
ghost use Rattle.run_laws.specs.TwoRuns.{IsPromisedRun, HaveSameFiles, ComeToTheSame};

use fw_base::{Gate, Library, Sink};
use replay_driver::run;
use replay_setup::{LibraryView, Outcome, SinkView};
use std::alloc::Global;
use std::sync::Wait;
use std::thread::Threads;

/// Runs the same words twice, over one library and sink and over others, and answers both outcomes, the first one
/// first. Of words that are a command they come to the same, where they don't ask for live mode, the libraries tell
/// the same bytes, and no status is above 3.
pub fn run_both<R: Threads + Wait + Sync, L: Library, M: Library, K: Sink, N: Sink, G: Gate + Sync>(
    rt: &R,
    alloc: Global,
    words: &[String],
    library: &mut L,
    out: &mut K,
    other_library: &mut M,
    other_out: &mut N,
    gate: &G,
) -> (Outcome<L::Reader>, Outcome<M::Reader>)
where
    L::Reader: Send + Sync,
    M::Reader: Send + Sync,
    // Each outcome is that of a run, exactly.
    ensures first_usage { job_of (map string_bytes words.now) ≡ None
        → IsNoCommand ⟦<K as SinkView>⟧.output library.old library.new out.old out.new result.0 }
    ensures first_found { IfSome (job_of (map string_bytes words.now)) (λ job.
        IsRunOf ⟦<K as SinkView>⟧.output ⟦<L as LibraryView>⟧.files
        job library.old library.new out.old out.new result.0) }
    ensures second_usage { job_of (map string_bytes words.now) ≡ None
        → IsNoCommand ⟦<N as SinkView>⟧.output other_library.old other_library.new
        other_out.old other_out.new result.1 }
    ensures second_found { IfSome (job_of (map string_bytes words.now)) (λ job.
        IsRunOf ⟦<N as SinkView>⟧.output ⟦<M as LibraryView>⟧.files
        job other_library.old other_library.new other_out.old other_out.new result.1) }

    // Each keeps what the law asks for, and so both come to the same; in live mode threads may come to other orders.
    ensures first { IfSome (job_of (map string_bytes words.now)) (λ job. IsPromisedRun
        (record { files = ⟦<L as LibraryView>⟧.files; output = ⟦<K as SinkView>⟧.output })
        job library.old library.new out.old out.new result.0) }
    ensures second { IfSome (job_of (map string_bytes words.now)) (λ job. IsPromisedRun
        (record { files = ⟦<M as LibraryView>⟧.files; output = ⟦<N as SinkView>⟧.output })
        job other_library.old other_library.new other_out.old other_out.new result.1) }
    ensures same { IfSome (job_of (map string_bytes words.now)) (λ job.
        IsSerialJob job → HaveSameFiles job (L.pairs library.old) (M.pairs other_library.old)
        → result.0.status ≤ 3 → result.1.status ≤ 3
        → ComeToTheSame ⟦<K as SinkView>⟧.output.written ⟦<N as SinkView>⟧.output.written
        result.0 result.1 out.old out.new other_out.old other_out.new) }
{
    let first = run(rt, alloc, words, library, out, gate);
    let second = run(rt, alloc, words, other_library, other_out, gate);
    (first, second)
}
