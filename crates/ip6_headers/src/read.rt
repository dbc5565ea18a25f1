ghost use Rattle.std.specs.Prelude.{◌≡◌, ◌+◌, ◌^◌, ◌<◌, ◌≤◌, length};
ghost use Rattle.packet_headers.specs.Packet.{reading_of};
ghost use Rattle.ip6_headers.specs.Reading as spec;

use crate::chain::last_header;
use crate::layer::{Layer, layer_at};
use crate::link_header::ipv6_packet;
use crate::{AnyIp, AnyPacket, Ip6};
use fw_base::{Addr6, Link};
use packet_headers::{Packet, four_octets, read_packet, two_octets};

/// The frame ends within the IPv6 header.
const SHORT_HEADER: u8 = 2;
/// The version isn't 6.
const WRONG_VERSION: u8 = 3;
/// How many bytes an IPv6 header has (RFC 8200 section 3).
const HEADER_SIZE: usize = 40;

/// Reads the frame of a capture with that link type. What it answers is lent from the bytes.
#[tactic(auto, unfolding(crate::specs::Reading::read_any))]
#[inline(never)]
pub fn read_any(link: Link, bytes: &[u8]) -> AnyPacket<'_>
    requires { length bytes.now < 2 ^ 32 }
    ensures { result ≡ spec.read_any link bytes.now }
{
    match ipv6_packet(link, bytes) {
        Some(packet) => read_ipv6(packet),
        None => of_ipv4(read_packet(link, bytes)),
    }
}

fn of_ipv4(packet: Packet<'_>) -> AnyPacket<'_>
    ensures { result ≡ spec.of_ipv4 (reading_of packet.entry) }
{
    match packet {
        Packet::Ip(packet) => AnyPacket::Ip(AnyIp::Four(packet)),
        Packet::Other => AnyPacket::Other,
        Packet::Malformed(kind) => AnyPacket::Malformed(kind),
    }
}

#[tactic(auto, unfolding(crate::specs::Reading::read_ipv6))]
fn read_ipv6(packet: &[u8]) -> AnyPacket<'_>
    requires { length packet.now < 2 ^ 32 }
    ensures { result ≡ spec.read_ipv6 packet.now }
{
    if packet.len() < HEADER_SIZE {
        return AnyPacket::Malformed(SHORT_HEADER);
    }
    if packet[0] / 16 != 6 {
        return AnyPacket::Malformed(WRONG_VERSION);
    }
    let total = total_length(packet);
    let within = within_total(packet, total);
    let layer = layer_at(within, last_header(within));
    AnyPacket::Ip(AnyIp::Six(packet_with(packet, total, layer)))
}

/// The packet whose extension headers lead there.
fn packet_with<'a>(packet: &[u8], total: usize, layer: Layer<'a>) -> Ip6<'a>
    requires long { 40 ≤ length packet.now }
    requires total { total ≡ spec.total_length6 packet.now }
    requires fits { total < 2 ^ 32 }
    ensures { result ≡ spec.fields_with packet.now layer.entry }
{
    Ip6 {
        source: address_at(packet, 8),
        destination: address_at(packet, 24),
        protocol: layer.protocol,
        total: total as u32,
        offset: layer.offset,
        transport: layer.transport,
    }
}

/// The bytes of the packet but for its padding.
fn within_total(packet: &[u8], total: usize) -> &[u8]
    requires { total ≡ spec.total_length6 packet.now }
    ensures value { result.now ≡ spec.within_total packet.now }
    ensures least { 40 ≤ length packet.now → 40 ≤ length result.now }
{
    if total < packet.len() {
        &packet[..total]
    } else {
        packet
    }
}

fn total_length(packet: &[u8]) -> usize
    requires { 40 ≤ length packet.now }
    ensures value { result ≡ spec.total_length6 packet.now }
    ensures least { 40 ≤ result }
    ensures most { length packet.now < 2 ^ 32 → result < 2 ^ 32 }
{
    match two_octets(packet, 4) {
        0 => packet.len(),
        told => HEADER_SIZE + usize::from(told),
    }
}

/// The number of the eight bytes from a place on, the most significant first.
fn eight_octets(packet: &[u8], place: usize) -> u64
    requires { place + 8 ≤ length packet.now }
    ensures { result ≡ spec.eight_octets packet.now place }
{
    u64::from(four_octets(packet, place)) * 0x1_0000_0000
        + u64::from(four_octets(packet, place + 4))
}

fn address_at(packet: &[u8], place: usize) -> Addr6
    requires { place + 16 ≤ length packet.now }
    ensures { result.0 ≡ spec.address_at packet.now place }
{
    let leading = u128::from(eight_octets(packet, place));
    Addr6(leading * 0x1_0000_0000_0000_0000 + u128::from(eight_octets(packet, place + 8)))
}
