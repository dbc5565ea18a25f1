//! What moved between two lists of outcomes, record by record: how often, where first and where
//! last.
//!
//! Tests: the built program: `tests/run`.
#![tactic(auto)]

pub use laws::{moves_turn_round, nothing_moves_of_itself};
pub use moves::{Move, Moves, have_same_lengths, moves_between};
pub use spans::{Span, one_more, spans_of};

mod laws;
mod moves;
mod spans;
