//! Reads the headers of a captured frame: the link header, the IPv4 header, and the fields of the TCP,
//! UDP or ICMP header that packet filter rules test.
//!
//! Tests: `input_tests`, src/packets.
#![tactic(auto)]

pub use flows::Flow;
pub use ip4::{Ip4, flow};
pub use octets::{four_octets, two_octets};
pub use packet::Packet;
pub use protocols::{TCP, UDP};
pub use read::{VLAN, read_packet};

mod defect;
mod flows;
mod ip4;
pub mod laws;
mod octets;
mod options;
mod packet;
mod protocols;
mod read;
