//! Says whether a report is that of a legal record.
//!
//! Tests: `run_tests`, src/openings and src/runs/audits.
#![tactic(auto)]

pub use audit::Audit;
pub use audit_fault::AuditFault;
pub use comparer::Comparer;
pub use laws::{
    differences_are_by_lines, printed_journals_pass, tests_find_all, tests_find_the_first,
    told_records_are_legal,
};
pub use opening::open_journal;
pub use rebuilt::Rebuilt;

mod ask_index;
mod ask_stands;
mod audit;
mod audit_fault;
mod begun_book;
mod closing;
mod comparer;
mod forms;
mod judging;
mod lane_index;
mod laws;
mod left_over;
mod lengths;
mod meeting;
mod numbered;
mod opening;
mod publisher;
mod reading_told;
mod rebuilt;
mod record_index;
mod record_name;
mod replaying;
mod sweep;
mod telling;
mod told;
mod told_asks;
mod told_entries;
mod told_evaluations;
mod told_report;
mod written;
