//! What each command makes of a configuration of the packet filter (ipfw(8)).
//!
//! Tests: `chain_tests`, src/commands.
#![tactic(auto)]

pub use apply_fault::ApplyFault;
pub use changing::is_changing;
pub use commands::{apply, apply_owned};
pub use laws::untouched_rules_stay;
pub use touching::touches_rules;

mod add;
mod address_list;
mod apply_fault;
mod changing;
mod commands;
mod delete;
mod edited;
mod laws;
mod locals;
mod moves;
mod new_names;
mod number_set;
mod numbers;
mod owned;
mod sets;
mod table_changes;
mod touching;
mod uses;
mod values;
mod zero;
