ghost use Rattle.std.specs.Prelude.{◌≡◌, ◌+◌, ◌≤◌, length, find, if◌then◌else◌, IfSome};
ghost use Rattle.ip6_headers.specs.Chain as spec;

use crate::header::Header;
use packet_headers::two_octets;

/// The hop-by-hop options (RFC 8200 section 4.3).
const HOP_BY_HOP: u8 = 0;
/// The routing header (section 4.4).
const ROUTING: u8 = 43;
/// The fragment header (section 4.5).
const FRAGMENT: u8 = 44;
/// The authentication header (RFC 4302 section 2).
const AUTHENTICATION: u8 = 51;
/// The destination options (RFC 8200 section 4.6).
const DESTINATION_OPTIONS: u8 = 60;

/// Whether the number is that of a header behind which another one stands.
pub fn is_extension(number: u8) -> bool
    ensures { result ≡ spec.is_extension number }
{
    matches!(
        number,
        HOP_BY_HOP | ROUTING | FRAGMENT | AUTHENTICATION | DESTINATION_OPTIONS
    )
}

/// How many bytes an extension header has, of which the first two are there.
fn header_length(packet: &[u8], header: Header) -> usize
    requires { header.place + 2 ≤ length packet.now }
    ensures value { result ≡ spec.header_length packet.now header }
    ensures least { 8 ≤ result }
    ensures most { result ≤ 2048 }
{
    let count = usize::from(packet[header.place + 1]);
    match header.number {
        FRAGMENT => 8,
        AUTHENTICATION => 4 * count + 8,
        _ => 8 * count + 8,
    }
}

/// Where the extension header ends, and the next one begins; `None` where it isn't whole.
pub fn end_of(packet: &[u8], header: Header) -> Option<usize>
    requires { header.place ≤ length packet.now }
    ensures value { result
        ≡ (if spec.is_whole packet.now header then Some (spec.end_place packet.now header)
        else None) }
    ensures within { IfSome result (λ end. end ≤ length packet.now) }
    ensures further { IfSome result (λ end. header.place + 8 ≤ end) }
{
    if packet.len() - header.place < 2 {
        return None;
    }
    let size = header_length(packet, header);
    if packet.len() - header.place < size {
        None
    } else {
        Some(header.place + size)
    }
}

/// Where the data behind a header that is whole begins in the whole packet, in units of 8 bytes.
pub fn fragment_offset(packet: &[u8], header: Header) -> u16
    requires { header.place + 8 ≤ length packet.now }
    ensures { result ≡ spec.fragment_offset packet.now header }
{
    if header.number == FRAGMENT {
        two_octets(packet, header.place + 2) / 8
    } else {
        0
    }
}

/// The header behind this one; `None` where the chain ends at this one.
fn next_header(packet: &[u8], header: Header) -> Option<Header>
    requires { header.place ≤ length packet.now }
    ensures value { result ≡ (if spec.ends_chain packet.now header then None
        else Some (spec.next_header packet.now header)) }
    ensures within { IfSome result (λ next. next.place ≤ length packet.now) }
    ensures further { IfSome result (λ next. header.place + 8 ≤ next.place) }
{
    if !is_extension(header.number) {
        return None;
    }
    let end = end_of(packet, header)?;
    if fragment_offset(packet, header) != 0 {
        return None;
    }
    Some(Header {
        number: packet[header.place],
        place: end,
    })
}

/// The header at which the chain ends.
pub fn last_header(packet: &[u8]) -> Header
    requires { 40 ≤ length packet.now }
    ensures value { result ≡ spec.last_header packet.now }
    ensures found { find (spec.ends_chain packet.now) (spec.headers packet.now) ≡ Some result }
    ensures within { result.place ≤ length packet.now }
{
    let mut header = Header {
        number: packet[6],
        place: 40,
    };
    while let Some(next) = next_header(packet, header) {
        header = next;
    }
    header
}
