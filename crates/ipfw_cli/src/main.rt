//! `ipfw_replay`: replays captures beside an operator's script of rules, and audits reports of that.
//!
//! Tests: the built program: `tests/run`.
#![tactic(auto)]

use fw_base::FreeGate;
use run_driver::run;
use std::io;
use std::process::ExitCode;
use system_files::{FaultCounter, FileLibrary, OUT_OF_MEMORY, words_given};

fn main(rt: HostRuntime) -> ExitCode {
    let alloc = rt.alloc();
    let Ok(words) = words_given(&rt) else {
        return ExitCode::from(OUT_OF_MEMORY);
    };
    let mut out = FaultCounter::new(io::writer(&rt));
    let mut library = FileLibrary::new(&rt);
    let outcome = run(&rt, alloc, &words, &mut library, &mut out, &FreeGate);
    ExitCode::from(outcome.status)
}
