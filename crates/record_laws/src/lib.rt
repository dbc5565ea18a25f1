//! Laws of what is recorded and printed of a run, in the words of the packet filter: functions with no body, whose
//! contracts are the laws.
//!
//! Tests: `record_tests`, src/records.
#![tactic(auto)]

pub mod laws;
