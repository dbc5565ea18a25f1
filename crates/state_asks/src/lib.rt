//! What the dynamic states are asked and told, and what they answer (ipfw(8), "STATEFUL FIREWALL").
//!
//! Tests: none of its own.
#![tactic(auto)]

pub use facts::{Facts, is_ordered};
pub use flags::kept_flags;
pub use identities::Identities;
pub use op::{FlowName, Op};
pub use reply::{Reply, Way};
pub use rule_ref::{LAST_RULE, RuleRef};

mod facts;
mod flags;
mod identities;
mod op;
mod reply;
mod rule_ref;
