//! Verdicts that are kept for packets of one key: why they are those of an evaluation, which packets hit, and the
//! cache of one lane.
//!
//! Tests: none of its own.
#![tactic(auto)]

pub use kept_verdict::KeptVerdict;
pub use lane_cache::LaneCache;

mod beginning;
mod kept_verdict;
mod lane_cache;
pub mod laws;
