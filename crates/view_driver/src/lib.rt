//! What `report_view` does: it shows a report of `ipfw_replay`, what an edit of the rules changed, and what is
//! wrong or odd with a script.
//!
//! Tests: the built program: `tests/run`.
#![tactic(auto)]

pub use run_command::run;

mod compared;
mod flows_text;
mod inputs;
mod moves_text;
mod moves_view;
mod page_view;
mod run_command;
mod script_text;
mod script_view;
mod shown;
mod trouble;
mod trouble_text;
mod words;
