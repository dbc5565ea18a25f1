//! A cache of verdicts for one packet thread: the most recent answers of one edition, by what a rule set
//! can tell of an IPv4 packet.
//!
//! Tests: `engine_tests`, src/caches.
#![tactic(auto)]

pub use cache::VerdictCache;
pub use key::Key;
pub use present_options::PresentOptions;

mod cache;
mod key;
pub mod laws;
mod present_options;
