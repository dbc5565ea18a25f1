//! Replays captures beside a script of rules, and prints the report: what `ipfw_replay` does.
//!
//! Tests: `run_tests`, src/runs.
#![tactic(auto)]

pub use run_command::run;

mod edition_replay;
mod files_replay;
mod manner;
mod pieced_text;
mod replay_load;
mod run_command;
mod run_result;
