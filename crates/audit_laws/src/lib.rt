//! Laws of the auditor, in functions with no body: the report that is printed of a legal record
//! passes each of its passes, and each legal record of a script and captures has such a report.
//!
//! Tests: laws: none.
#![tactic(auto)]

pub use laws::{
    forms_are_kept, printed_reports_are_faultless, printed_reports_leave_nothing,
    printed_reports_open, printed_reports_tell_their_records, rebuilt_records_print_alike,
    records_are_reported, scripts_are_formed,
};

mod laws;
