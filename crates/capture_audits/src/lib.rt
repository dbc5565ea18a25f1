//! Captures beside a report that is audited: each is read, and its records are met in their order.
//!
//! Tests: through `run`: `run_tests`, src/runs/audits.
#![tactic(auto)]

pub use examined::{Examined, examine};

mod capture_audit;
mod examined;
