//! Which flows the records of a move have: who spoke to whom, how often, where first and where last.
//!
//! Tests: the built program: `tests/run`.
#![tactic(auto)]

pub use flow::{AnyFlow, Flow6, flow_in};
pub use flow_counts::FlowSpan;
pub use flows_fault::FlowsFault;
pub use told_flows::flows_of;

mod capture_counts;
mod flow;
mod flow_counts;
mod flows_fault;
mod move_places;
mod told_flows;
