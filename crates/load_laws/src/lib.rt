//! Laws of the script and the capture that a load makes: functions with no body, whose contracts are the laws.
//!
//! Tests: laws: none.
#![tactic(auto)]

pub mod laws;
