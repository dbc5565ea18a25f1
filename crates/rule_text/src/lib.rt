//! The canonical text of a rule, and of the addresses, numbers and words in it (ipfw(8), "RULE FORMAT").
//!
//! Tests: `language_tests`, src/drafts.
#![tactic(auto)]

pub use address6_text::{first_longest_runs_are_found, write_address6};
pub use elements::write_address;
pub use rule_text::{WriteFault, write_protocol, write_rule, write_rule_rest};
pub use writing::write_five_digits;

mod address6_text;
mod digits;
mod elements;
mod flow_name;
mod options;
mod rule_text;
mod writing;
