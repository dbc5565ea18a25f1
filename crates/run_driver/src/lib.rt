//! What `ipfw_replay` does: `run`, which carries out whichever command the words are.
//!
//! Tests: `run_tests`, src/runs.
#![tactic(auto)]

pub use laws::runs_take_reports;
pub use run_command::run;

mod laws;
mod run_command;
