//! What holds of every two runs of one job.
ghost use Rattle.run_laws.specs.TwoRuns.{RunsAreDetermined};

use fw_base::{Library, Sink};
use replay_setup::{LibraryView, SinkView};

/// Two runs of one job that isn't of live mode, over libraries that tell the same bytes under the names that it opens, end with the same
/// status, keep records that say the same and, where they keep one, give the same answers, and write the same text to
/// sinks that tell theirs, unless one of them ends with status 4, 5 or 6.
pub fn runs_are_determined<L: Library, K: Sink, M: Library, N: Sink>()
    ensures { RunsAreDetermined
        (record { files = ⟦<L as LibraryView>⟧.files; output = ⟦<K as SinkView>⟧.output })
        (record { files = ⟦<M as LibraryView>⟧.files; output = ⟦<N as SinkView>⟧.output }) }
{}
