//! What is wrong with a script, each line by itself, and what is odd in one that has no fault.
//!
//! Tests: the built program: `tests/run`.
#![tactic(auto)]

pub use faulty_lines::{LineFault, line_faults};
pub use findings::{Finding, Size, findings_in};

mod faulty_lines;
mod findings;
mod rule_parts;
mod takers;
