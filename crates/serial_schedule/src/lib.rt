//! The order in which a serial run replays the records of several captures, and runs the commands between
//! them.
//!
//! Tests: `record_tests`, src/schedules.
#![tactic(auto)]

pub use agenda::Agenda;
pub use moment::Moment;
pub use order::first_capture;

mod agenda;
mod head;
mod moment;
mod order;
