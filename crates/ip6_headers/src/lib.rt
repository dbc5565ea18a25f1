//! Reads the headers of a captured frame of either version of the internet protocol: an IPv6 packet's
//! header, the extension headers behind it and the fields of the TCP, UDP or ICMPv6 header that packet
//! filter rules test; everything else as `packet_headers` reads it.
//!
//! Tests: `input_tests`, src/packets6.
#![tactic(auto)]

pub use any_ip::AnyIp;
pub use any_packet::AnyPacket;
pub use ip6::Ip6;
pub use read::read_any;

mod any_ip;
mod any_packet;
mod chain;
mod header;
mod ip6;
pub mod laws;
mod layer;
mod link_header;
mod protocols;
mod read;
