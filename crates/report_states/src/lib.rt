//! The live states along a report's journal, by the script behind it.
//!
//! Tests: the built program: `tests/run`.
#![tactic(auto)]

pub use live_counts::live_states;
pub use states_fault::StatesFault;

mod journal_behind;
mod live_counts;
mod states_fault;
mod walk;
