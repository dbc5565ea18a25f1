ghost use Rattle.std.specs.Prelude.{◌≡◌, ◌^◌, ◌<◌, ◌≤◌, length};
ghost use Rattle.fw_base.specs.declared.link.Link.TheVariants.{Null, Ethernet, Raw, Cooked};
ghost use Rattle.packet_headers.specs.Packet.{reading_of};
ghost use Rattle.packet_headers.specs.Reading.{reading_of_frame, read_ipv4, read_typed, total_length};

use crate::defect::Defect;
use crate::octets::{four_octets, two_octets};
use crate::{Ip4, Packet};
use fw_base::{Addr, Link};

/// The address family of IPv4.
const INET: u32 = 2;

/// The same, written by a machine of the other byte order.
const INET_SWAPPED: u32 = 0x0200_0000;

/// The Ethernet type of IPv4.
const IPV4: u16 = 0x0800;

/// The Ethernet type of a VLAN tag (IEEE 802.1Q).
pub const VLAN: u16 = 0x8100;

/// Reads the frame of a capture with that link type. What it answers is lent from the bytes.
pub fn read_packet(link: Link, bytes: &[u8]) -> Packet<'_>
    requires { length bytes.now < 2 ^ 32 }
    ensures { reading_of result ≡ reading_of_frame link bytes.now }
{
    match link {
        Link::Null => read_null(bytes),
        Link::Ethernet => read_ethernet(bytes),
        Link::Raw => read_raw(bytes),
        Link::Cooked => read_cooked(bytes),
    }
}

#[tactic(auto, unfolding(crate::specs::Reading::reading_of_frame))]
fn read_null(bytes: &[u8]) -> Packet<'_>
    requires { length bytes.now < 2 ^ 32 }
    ensures { reading_of result ≡ reading_of_frame Null bytes.now }
{
    if bytes.len() < 4 {
        return Packet::Malformed(Defect::ShortLinkHeader as u8);
    }
    let family = four_octets(bytes, 0);
    if family == INET || family == INET_SWAPPED {
        read_ipv4(&bytes[4..])
    } else {
        Packet::Other
    }
}

#[tactic(auto, unfolding(crate::specs::Reading::reading_of_frame))]
fn read_ethernet(bytes: &[u8]) -> Packet<'_>
    requires { length bytes.now < 2 ^ 32 }
    ensures { reading_of result ≡ reading_of_frame Ethernet bytes.now }
{
    if bytes.len() < 14 {
        return Packet::Malformed(Defect::ShortLinkHeader as u8);
    }
    let kind = two_octets(bytes, 12);
    if kind != VLAN {
        return read_typed(kind, &bytes[14..]);
    }
    if bytes.len() < 18 {
        return Packet::Malformed(Defect::ShortLinkHeader as u8);
    }
    read_typed(two_octets(bytes, 16), &bytes[18..])
}

#[tactic(auto, unfolding(crate::specs::Reading::reading_of_frame))]
fn read_raw(bytes: &[u8]) -> Packet<'_>
    requires { length bytes.now < 2 ^ 32 }
    ensures { reading_of result ≡ reading_of_frame Raw bytes.now }
{
    if !bytes.is_empty() && bytes[0] / 16 == 6 {
        return Packet::Other;
    }
    read_ipv4(bytes)
}

#[tactic(auto, unfolding(crate::specs::Reading::reading_of_frame))]
fn read_cooked(bytes: &[u8]) -> Packet<'_>
    requires { length bytes.now < 2 ^ 32 }
    ensures { reading_of result ≡ reading_of_frame Cooked bytes.now }
{
    if bytes.len() < 16 {
        return Packet::Malformed(Defect::ShortLinkHeader as u8);
    }
    read_typed(two_octets(bytes, 14), &bytes[16..])
}

#[tactic(auto, unfolding(crate::specs::Reading::read_typed))]
fn read_typed(kind: u16, packet: &[u8]) -> Packet<'_>
    requires { length packet.now < 2 ^ 32 }
    ensures { reading_of result ≡ read_typed kind packet.now }
{
    if kind == IPV4 {
        read_ipv4(packet)
    } else {
        Packet::Other
    }
}

#[tactic(auto, unfolding(crate::specs::Reading::read_ipv4))]
fn read_ipv4(packet: &[u8]) -> Packet<'_>
    requires { length packet.now < 2 ^ 32 }
    ensures { reading_of result ≡ read_ipv4 packet.now }
{
    if packet.len() < 20 {
        return Packet::Malformed(Defect::ShortHeader as u8);
    }
    if packet[0] / 16 != 4 {
        return Packet::Malformed(Defect::WrongVersion as u8);
    }
    let words = usize::from(packet[0] % 16);
    if words < 5 {
        return Packet::Malformed(Defect::HeaderLength as u8);
    }
    let header = 4 * words;
    if packet.len() < header {
        return Packet::Malformed(Defect::ShortHeader as u8);
    }
    let total = total_length(packet);
    if total < header {
        return Packet::Malformed(Defect::TotalLength as u8);
    }
    Packet::Ip(Ip4 {
        source: Addr(four_octets(packet, 12)),
        destination: Addr(four_octets(packet, 16)),
        protocol: packet[9],
        total: total as u32,
        offset: two_octets(packet, 6) % 8192,
        options: &packet[20..header],
        transport: &packet[header..total.min(packet.len())],
    })
}

fn total_length(packet: &[u8]) -> usize
    requires { 20 ≤ length packet.now }
    ensures { result ≡ total_length packet.now }
{
    match two_octets(packet, 2) {
        0 => packet.len(),
        told => usize::from(told),
    }
}
