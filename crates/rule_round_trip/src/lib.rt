//! The canonical text of a rule is read as this rule: functions with no body, whose contracts are the laws.
//!
//! Tests: laws: none.
#![tactic(auto)]

pub mod laws;
