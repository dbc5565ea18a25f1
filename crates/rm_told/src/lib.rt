//! The read-mostly lock with sections that lie in one another, as RM_RECURSE of rmlock(9) allows, and with
//! readers that were told of publications.
//!
//! Tests: `lock_tests`, src/told_rows.
#![tactic(auto)]

pub use deep::{Deep, MOST_DEPTH};
pub use laws::told_readers_meet_the_edition;
pub use told::{DeepEntry, Left, Told, TooDeep};

mod deep;
mod laws;
mod told;
