//! Evaluates packets: which rule decides one, what it asks of the dynamic states, and what it counts
//! (ipfw(8), "RULE ACTIONS", "STATEFUL FIREWALL").
//!
//! Tests: `engine_tests`, src/evaluations.
#![tactic(auto)]

pub use beginning::begin;
pub use callers::MOST_CALLS;
pub use docket::Docket;
pub use docket_entry::DocketEntry;
pub use judgement::{Cause, Judgement, Verdict};
pub use laws::{evaluations_end_once, first_match_decides, hits_are_of_rules};
pub use paused::Paused;
pub use question::Question;
pub use replies::is_reply_to;
pub use resuming::resume;

mod beginning;
mod callers;
mod docket;
mod docket_entry;
mod encounter;
mod judgement;
mod laws;
mod paused;
mod position;
mod question;
mod replies;
mod resuming;
mod searched;
mod walking;
