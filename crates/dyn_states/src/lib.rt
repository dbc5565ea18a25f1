//! The dynamic states of the packet filter (ipfw(8), "STATEFUL FIREWALL"): what a packet's ask answers,
//! and what a publication leaves.
//!
//! Tests: `states_tests`, src/states.
#![tactic(auto)]

pub use hashed_states::HashedStates;
pub use scanned_states::ScannedStates;
pub use state::State;

/// The states that a book keeps.
pub type States = HashedStates;

mod expiry_queue;
mod flows;
mod hashed_states;
mod lifetimes;
mod limit_counts;
mod lines;
mod scanned_states;
mod state;
mod state_rules;
mod state_table;
mod table_asks;
mod tallies;
