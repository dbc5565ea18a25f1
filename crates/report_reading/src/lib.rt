//! Lines of a report, read back as what they tell.
//!
//! Tests: none of its own.
#![tactic(auto)]

pub use ask_lines::AskLine;
pub use lane_lines::LaneLine;
pub use lines::next_line;
pub use parts::{behind, number_on};
pub use readings::{Reading, read_line};
pub use record_lines::{RecordLine, read_record};

mod ask_lines;
mod ask_parts;
mod flow_texts;
mod lane_lines;
mod light_lines;
mod lines;
mod parts;
mod readings;
mod record_lines;
