//! Editions: configurations that were published under a number, with what an evaluation asks of them.
//!
//! Tests: `engine_tests`, src/editions.
#![tactic(auto)]

pub use edition::Edition;
pub use jumps::Jump;
pub use store::Store;

mod edition;
mod flow_names;
mod gates;
mod index;
mod jumps;
mod placed;
mod store;
