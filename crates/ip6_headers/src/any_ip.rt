ghost use Rattle.std.specs.Prelude.{◌≡◌};
ghost use Rattle.ip6_headers.specs.Either.{protocol_of, total_of, offset_of, any_ports_of, any_tcp_flags_of};

use crate::Ip6;
use packet_headers::Ip4;

/// A packet of either version of the internet protocol.
#[derive(Debug, Drop)]
pub enum AnyIp<'a> {
    Four(Ip4<'a>),
    Six(Ip6<'a>),
}

impl<'a> AnyIp<'a> {
    /// The protocol number of the header behind the version's own headers.
    pub fn protocol(&self) -> u8
        ensures { result ≡ protocol_of self.now }
    {
        match self {
            AnyIp::Four(packet) => packet.protocol(),
            AnyIp::Six(packet) => packet.protocol(),
        }
    }

    /// The total length in bytes, headers and data together.
    pub fn total(&self) -> u32
        ensures { result ≡ total_of self.now }
    {
        match self {
            AnyIp::Four(packet) => packet.total(),
            AnyIp::Six(packet) => packet.total(),
        }
    }

    /// Where this fragment's data begins in the whole packet, in units of 8 bytes.
    pub fn offset(&self) -> u16
        ensures { result ≡ offset_of self.now }
    {
        match self {
            AnyIp::Four(packet) => packet.offset(),
            AnyIp::Six(packet) => packet.offset(),
        }
    }

    /// The source port and the destination port; `None` exactly where the packet isn't TCP or UDP, or
    /// lacks its transport header.
    pub fn ports(&self) -> Option<(u16, u16)>
        ensures { result ≡ any_ports_of self.now }
    {
        match self {
            AnyIp::Four(packet) => packet.ports(),
            AnyIp::Six(packet) => packet.ports(),
        }
    }

    /// The eight control bits of TCP; `None` exactly where the packet isn't TCP, or lacks its transport
    /// header.
    pub fn tcp_flags(&self) -> Option<u8>
        ensures { result ≡ any_tcp_flags_of self.now }
    {
        match self {
            AnyIp::Four(packet) => packet.tcp_flags(),
            AnyIp::Six(packet) => packet.tcp_flags(),
        }
    }
}
