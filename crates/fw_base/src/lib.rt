//! What the packet filter is given from outside, and the plain values that every crate above speaks
//! of: addresses, prefixes, port ranges, link types, names.
//!
//! Tests: none of its own.
#![tactic(auto)]

pub use address::Addr;
pub use address6::Addr6;
pub use failure::{Failed, OutOfMemory};
pub use gate::{FreeGate, Gate};
pub use kept::Kept;
pub use library::Library;
pub use limits::{MOST_CAPTURES, MOST_LOAD_RECORDS, MOST_RECORDS_OF_ALL, MOST_VERDICTS};
pub use link::Link;
pub use name::{Name, are_name_bytes};
pub use numbered::Numbered;
pub use port::{Direction, Port};
pub use port_range::PortRange;
pub use prefix::Prefix;
pub use prefix6::Prefix6;
pub use sink::{Sink, write_pieces, write_text};
pub use source::Source;

mod address;
mod address6;
mod failure;
mod gate;
mod kept;
mod library;
mod limits;
mod link;
mod name;
mod numbered;
mod port;
mod port_range;
mod prefix;
mod prefix6;
mod sink;
mod source;
