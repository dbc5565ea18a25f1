//! Counters of rules: packets and bytes, counted by each lane for itself and added up for the report.
//!
//! Tests: `engine_tests`, src/counts.
#![tactic(auto)]

pub use tally::{Count, Tally, total};

mod tally;
