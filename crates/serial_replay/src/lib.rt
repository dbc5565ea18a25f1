//! Replays captures beside the commands behind `live` of a script, in one thread and in the order of the schedule.
//!
//! Tests: through `run`: `run_tests`, src/runs.
#![tactic(auto)]

pub use replay::replay_serial;

mod replay;
mod replay_world;
mod running;
mod tracks;
