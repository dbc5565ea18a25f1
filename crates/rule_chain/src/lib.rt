//! A configuration of the packet filter (ipfw(8)): its rules in order, its sets, tables, settings and flow names.
//!
//! Tests: `chain_tests`, src/commands.
#![tactic(auto)]

pub use config::{Config, LAST_NUMBER, LAST_SET, MOST_COUNTERS, MOST_RULES};
pub use config_parts::ConfigParts;
pub use laws::{law_of_configuration, places_tell_rules_apart};
pub use names::{MOST_NAMES, flow_name_of};
pub use rule_list::RuleList;

mod config;
mod config_parts;
mod laws;
mod names;
mod rule_list;
