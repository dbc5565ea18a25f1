ghost use Rattle.std.specs.Prelude.{◌≡◌};
ghost use Rattle.ip6_headers.specs.Transport6.{header_size6};

use packet_headers::{TCP, UDP};

/// The protocol number of ICMPv6 (RFC 4443).
pub const ICMP6: u8 = 58;

/// How many bytes of a protocol's header have to be there for its fields to be read.
pub fn header_size6(protocol: u8) -> usize
    ensures { result ≡ header_size6 protocol }
{
    match protocol {
        TCP => 20,
        UDP => 8,
        ICMP6 => 4,
        _ => 0,
    }
}
