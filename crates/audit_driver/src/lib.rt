//! The command `audit`, which says whether a report is that of a legal record of a script and
//! captures.
//!
//! Tests: `run_tests`, src/runs/audits.
#![tactic(auto)]

pub use audit_command::{AuditWords, audit};

mod audit_command;
mod audit_result;
mod concluding;
