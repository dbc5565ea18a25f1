//! Replays captures beside the commands behind `live` of a script: each capture by a thread of its own, and the
//! commands by one more, over one shared world.
//!
//! Tests: through `run`: `run_tests`, src/runs/live.
#![tactic(auto)]

pub use replay::replay_live;
pub use runner::Runner;

mod crew;
mod lane_steps;
mod operator;
mod replay;
mod runner;
mod task;
