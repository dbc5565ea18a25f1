//! What a report is: how captures end, how lines of the script are answered, and the text of a record with them.
//!
//! Tests: `report_tests`, src/reports.
#![tactic(auto)]

pub use capture_end::CaptureEnd;
pub use ends::{Answer, Ends, LineAnswer};
pub use laws::{ask_lines_are_their_parts, record_lines_are_records};
pub use recorded::Recorded;

mod capture_end;
mod ends;
mod laws;
mod recorded;
