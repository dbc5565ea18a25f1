//! The journal of the dynamic states: every ask with its answer and every publication, in the order in
//! which the one state object met them.
//!
//! Tests: `states_tests`, src/books.
#![tactic(auto)]

pub use book::Book;
pub use entry::{Entry, Item};

mod book;
mod entry;
