//! That two runs of one command, over libraries that tell the same bytes, come to the same: a law of what `run`
//! promises, and a function that runs twice.
//!
//! Tests: `run_tests`, src/runs/twice.
#![tactic(auto)]

pub mod laws;
pub mod two_runs;
