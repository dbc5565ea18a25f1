//! Gates: a few numbers beside each rule, by which an evaluation passes over most rules that have nothing
//! to do with a packet, without a look at the rule itself; and over each thirty-two gates in a row a hull, by
//! which a search passes over all of them.
//!
//! Tests: `engine_tests`, src/gates.
#![tactic(auto)]

pub use admission::{admits, is_exact};
pub use cacheable::is_cacheable;
pub use gate::Gate;
pub use gate_key::GateKey;
pub use gates::{Gates, gates_of};
pub use interval::Interval;
pub use key_making::key_of;
pub use search::next_admitted;
pub use sharing::are_same;
pub use stateful::{is_check_state, looks_up, state_of};

mod address_gate;
mod addresses;
mod admission;
mod cacheable;
mod gate;
mod gate_key;
mod gate_making;
mod gates;
mod hull_making;
mod interval;
mod key_making;
mod ports;
mod search;
mod sharing;
mod stateful;
mod versions;
mod words;
