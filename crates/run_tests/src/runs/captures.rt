use std::alloc::Global;
use std::test::Fail;
use test_frames::SYN;

/// The header of a little-endian capture of Ethernet frames, in microseconds.
pub const ETHERNET_HEADER: [u8; 24] = [
    0xd4, 0xc3, 0xb2, 0xa1, 2, 0, 4, 0, 0, 0, 0, 0, 0, 0, 0, 0, 0, 0, 4, 0, 1, 0, 0, 0,
];

/// The header of a little-endian capture of bare packets.
pub const RAW_HEADER: [u8; 24] = [
    0xd4, 0xc3, 0xb2, 0xa1, 2, 0, 4, 0, 0, 0, 0, 0, 0, 0, 0, 0, 0, 0, 4, 0, 101, 0, 0, 0,
];

/// An Ethernet header of IPv4.
pub const ETHERNET: [u8; 14] = [2, 0, 0, 0, 0, 1, 2, 0, 0, 0, 0, 2, 8, 0];

/// A nanosecond capture of Linux cooked frames, big-endian, up to the same SYN.
pub const COOKED: [u8; 56] = [
    0xa1, 0xb2, 0x3c, 0x4d, 0, 2, 0, 4, 0, 0, 0, 0, 0, 0, 0, 0, 0, 4, 0, 0, 0, 0, 0, 0x71, 0, 0, 0,
    100, 0, 0, 0, 0, 0, 0, 0, 56, 0, 0, 0, 56, 0, 0, 0, 1, 0, 6, 2, 0, 0, 0, 0, 2, 0, 0, 8, 0,
];

/// An address and a port.
pub type End = ([u8; 4], u16);

/// A packet of IPv4: TCP of 40 bytes with these flags, UDP or ICMP of 28 bytes, and a later fragment of UDP.
#[derive(Clone, Copy)]
pub enum Packet {
    Tcp(End, End, u8),
    Udp(End, End),
    Icmp([u8; 4], [u8; 4], u8),
    Fragment([u8; 4], [u8; 4]),
}

/// The first twelve bytes of an IPv4 header.
fn header_start(total: u8, fragment: u8, protocol: u8) -> [u8; 12] {
    [0x45, 0, 0, total, 0, 0, 0, fragment, 0x40, protocol, 0, 0]
}

/// Appends a little-endian record's heading: that second, fraction 0, its length twice.
fn push_heading(capture: &mut Vec<u8>, second: u32, length: u32) -> Result<(), Fail> {
    capture.extend_from_slice(&second.to_le_bytes())?;
    capture.extend_from_slice(&[0, 0, 0, 0])?;
    capture.extend_from_slice(&length.to_le_bytes())?;
    capture.extend_from_slice(&length.to_le_bytes())?;
    Ok(())
}

/// Appends a little-endian record of these parts.
pub fn push_record(capture: &mut Vec<u8>, second: u32, parts: &[&[u8]]) -> Result<(), Fail> {
    let mut length = 0u32;
    for part in parts {
        length = length.saturating_add(u32::try_from(part.len()).unwrap_or(0));
    }
    push_heading(capture, second, length)?;
    for part in parts {
        capture.extend_from_slice(part)?;
    }
    Ok(())
}

/// Appends the addresses of two ends, and then their ports.
fn push_ends(capture: &mut Vec<u8>, source: &End, destination: &End) -> Result<(), Fail> {
    capture.extend_from_slice(&source.0)?;
    capture.extend_from_slice(&destination.0)?;
    capture.extend_from_slice(&source.1.to_be_bytes())?;
    capture.extend_from_slice(&destination.1.to_be_bytes())?;
    Ok(())
}

/// Appends a record of a packet with ports, of this total length and protocol, up to its ports.
fn push_with_ports(
    capture: &mut Vec<u8>,
    second: u32,
    total: u8,
    protocol: u8,
    source: &End,
    destination: &End,
) -> Result<(), Fail> {
    push_heading(capture, second, u32::from(total))?;
    capture.extend_from_slice(&header_start(total, 0, protocol))?;
    push_ends(capture, source, destination)
}

/// Appends a record of a packet.
fn push_packet(capture: &mut Vec<u8>, second: u32, packet: &Packet) -> Result<(), Fail> {
    match packet {
        Packet::Tcp(source, destination, flags) => {
            let rest = [0, 0, 0, 0, 0, 0, 0, 0, 0x50, *flags, 0xff, 0xff, 0, 0, 0, 0];
            push_with_ports(capture, second, 40, 6, source, destination)?;
            capture.extend_from_slice(&rest)?;
            Ok(())
        }
        Packet::Udp(source, destination) => {
            push_with_ports(capture, second, 28, 17, source, destination)?;
            capture.extend_from_slice(&[0, 8, 0, 0])?;
            Ok(())
        }
        Packet::Icmp(source, destination, kind) => {
            let start = header_start(28, 0, 1);
            let rest = [*kind, 0, 0, 0, 0, 0, 0, 0];
            let parts: [&[u8]; 4] = [&start, source, destination, &rest];
            push_record(capture, second, &parts)
        }
        Packet::Fragment(source, destination) => {
            let start = header_start(28, 0xb9, 17);
            let rest = [0, 0, 0, 0, 0, 8, 0, 0];
            let parts: [&[u8]; 4] = [&start, source, destination, &rest];
            push_record(capture, second, &parts)
        }
    }
}

/// A raw capture of these packets.
pub fn capture_of(alloc: Global, packets: &[(u32, Packet)]) -> Result<Vec<u8>, Fail> {
    let mut capture = Vec::from_slice(alloc, &RAW_HEADER)?;
    for (second, packet) in packets {
        push_packet(&mut capture, *second, packet)?;
    }
    Ok(capture)
}

/// An Ethernet capture with so many records of the SYN, all of second 100.
pub fn syns(alloc: Global, count: usize) -> Result<Vec<u8>, Fail> {
    let mut capture = Vec::from_slice(alloc, &ETHERNET_HEADER)?;
    for _ in 0..count {
        push_record(&mut capture, 100, &[&ETHERNET, SYN])?;
    }
    Ok(capture)
}

/// A raw capture with these packets, all of second 100.
pub fn raw(alloc: Global, packets: &[&[u8]]) -> Result<Vec<u8>, Fail> {
    let mut capture = Vec::from_slice(alloc, &RAW_HEADER)?;
    for packet in packets {
        push_record(&mut capture, 100, &[*packet])?;
    }
    Ok(capture)
}
