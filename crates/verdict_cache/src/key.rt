ghost use Rattle.std.specs.Prelude.{◌≡◌};
ghost use Rattle.verdict_cache.specs.Key.{key_of};

use crate::present_options::{PresentOptions, present_options};
use fw_base::Addr;
use packet_headers::Ip4;

/// All that the body of a rule can tell of an IPv4 packet. Total length and time to live aren't in it.
#[derive(Clone, Copy, PartialEq, Eq, Hash)]
pub struct Key {
    pub source: Addr,
    pub destination: Addr,
    /// The protocol number.
    pub protocol: u8,
    /// Whether the fragment offset is 0.
    pub is_offset_zero: bool,
    /// The source port and the destination port; none exactly where the packet isn't TCP or UDP, or lacks
    /// its transport header.
    pub ports: Option<(u16, u16)>,
    /// The eight control bits of TCP; none exactly where the packet isn't TCP, or lacks its header.
    pub tcp_flags: Option<u8>,
    /// The type of the ICMP message; none exactly where the packet isn't ICMP, or lacks its header.
    pub icmp_type: Option<u8>,
    pub options: PresentOptions,
}

impl Key {
    /// The key of the packet. It takes no memory.
    pub fn of(packet: &Ip4<'_>) -> Key
        ensures { result ≡ key_of packet.now }
    {
        Key {
            source: packet.source(),
            destination: packet.destination(),
            protocol: packet.protocol(),
            is_offset_zero: packet.offset() == 0,
            ports: packet.ports(),
            tcp_flags: packet.tcp_flags(),
            icmp_type: packet.icmp_type(),
            options: present_options(packet),
        }
    }
}
