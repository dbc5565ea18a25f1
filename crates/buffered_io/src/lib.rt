//! Text before a sink, and the bytes of a source, in pieces of 64 KiB.
//!
//! Tests: through `run`: `run_tests`, src/runs.
#![tactic(auto)]

pub use piece_sink::PieceSink;
pub use whole_source::{ReadError, read_up_to};

mod piece_sink;
mod whole_source;

/// How many bytes are handed to a sink, or asked of a source, at once: 64 KiB.
pub const PIECE_BYTES: usize = 65_536;
