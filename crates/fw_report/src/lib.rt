//! The report of a run, and its summary, written.
//!
//! Tests: `report_tests`, src/reports.
#![tactic(auto)]

pub use report::write_report;
pub use summary::write_summary;

mod answer_lines;
mod docket_lines;
mod journal_lines;
mod line;
mod report;
mod rule_lines;
mod summary;
