//! `report_view`: shows a report of `ipfw_replay`, and what an edit of the rules changed.
//!
//! Tests: the built program: `tests/run`.
#![tactic(auto)]

use std::io;
use std::process::ExitCode;
use system_files::{FaultCounter, FileLibrary, OUT_OF_MEMORY, words_given};
use view_driver::run;

fn main(rt: HostRuntime) -> ExitCode {
    let alloc = rt.alloc();
    let Ok(words) = words_given(&rt) else {
        return ExitCode::from(OUT_OF_MEMORY);
    };
    let mut out = FaultCounter::new(io::writer(&rt));
    let mut library = FileLibrary::new(&rt);
    ExitCode::from(run(alloc, &words, &mut library, &mut out))
}
