ghost use Rattle.std.specs.Prelude.{◌≡◌};
ghost use Rattle.packet_headers.specs.Transport.{header_size};

/// The protocol number of ICMP (RFC 792).
pub const ICMP: u8 = 1;
/// The protocol number of TCP (RFC 9293).
pub const TCP: u8 = 6;
/// The protocol number of UDP (RFC 768).
pub const UDP: u8 = 17;

/// How many bytes of a protocol's header have to be there for its fields to be read.
pub fn header_size(protocol: u8) -> usize
    ensures { result ≡ header_size protocol }
{
    match protocol {
        TCP => 20,
        UDP | ICMP => 8,
        _ => 0,
    }
}
