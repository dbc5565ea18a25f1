//! The dynamic states as the report prints them: the clock, and a line for each.
//!
//! Tests: `states_tests`, src/states.
#![tactic(auto)]

pub use state_texts::write_states;

mod state_texts;
