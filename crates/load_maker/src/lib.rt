//! A script and a capture made from a number, the same at each run: what the mode `load` replays.
//!
//! Tests: `record_tests`, src/loads.
#![tactic(auto)]

pub use load::{Load, make};
pub use made_capture::MadeCapture;

mod generator;
mod load;
mod made_capture;
mod packets;
