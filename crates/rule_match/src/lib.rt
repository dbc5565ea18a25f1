//! Whether a rule's body holds of a packet (ipfw(8), "RULE BODY", "RULE OPTIONS").
//!
//! Tests: through `run`: `run_tests`, src/runs/bodies.
#![tactic(auto)]

pub use body::matches;
pub use ip_options::{LOOSE_SOURCE_ROUTE, RECORD_ROUTE, STRICT_SOURCE_ROUTE, TIME_STAMP};

mod addresses;
mod body;
mod flags;
mod interfaces;
mod ip_options;
mod lookups;
mod options;
mod ports;
