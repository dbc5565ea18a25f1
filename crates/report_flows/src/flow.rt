ghost use Rattle.std.specs.Prelude.{◌≡◌, ◌^◌, ◌<◌, length};
ghost use Rattle.report_flows.specs.Flows as spec;

use fw_base::{Addr6, Link};
use ip6_headers::{AnyIp, AnyPacket, Ip6, read_any};
use packet_headers::{Flow, flow};

/// Who speaks to whom by IPv6: the protocol, and both ends. The ports are 0 for protocols other than
/// TCP and UDP.
#[derive(Clone, Copy, PartialEq, Eq, Hash)]
pub struct Flow6 {
    pub source: Addr6,
    pub destination: Addr6,
    pub source_port: u16,
    pub destination_port: u16,
    pub protocol: u8,
}

/// Who speaks to whom, by either version of the internet protocol.
#[derive(Clone, Copy, PartialEq, Eq, Hash)]
pub enum AnyFlow {
    Four(Flow),
    Six(Flow6),
}

/// The flow of an IPv6 packet; `None` exactly where it is a later fragment or lacks its transport header.
#[tactic(auto, unfolding(crate::specs::Flows::flow6_of))]
fn ipv6_flow(packet: &Ip6<'_>) -> Option<Flow6>
    ensures { result ≡ spec.flow6_of packet.now }
{
    if !packet.has_transport_header() {
        return None;
    }
    let (source_port, destination_port) = packet.ports().unwrap_or((0, 0));
    Some(Flow6 {
        source: packet.source(),
        destination: packet.destination(),
        source_port,
        destination_port,
        protocol: packet.protocol(),
    })
}

/// The flow of a packet.
fn flow_of(packet: &AnyIp<'_>) -> Option<AnyFlow>
    ensures { result ≡ spec.flow_of packet.now }
{
    match packet {
        AnyIp::Four(packet) => flow(packet).map(AnyFlow::Four),
        AnyIp::Six(packet) => ipv6_flow(packet).map(AnyFlow::Six),
    }
}

/// The flow of a captured frame; `None` exactly where it is no packet, can't be read, is a later fragment, or lacks
/// its transport header.
pub fn flow_in(link: Link, bytes: &[u8]) -> Option<AnyFlow>
    requires { length bytes.now < 2 ^ 32 }
    ensures { result ≡ spec.flow_in link bytes.now }
{
    match read_any(link, bytes) {
        AnyPacket::Ip(packet) => flow_of(&packet),
        AnyPacket::Other | AnyPacket::Malformed(_) => None,
    }
}
