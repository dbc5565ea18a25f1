mod links;
mod made;

use crate::frames::behind;
use fw_base::{Addr6, Link};
use ip6_headers::{AnyIp, AnyPacket, Ip6, read_any};
use links::{FRAMES, HEADERS};
use made::{PACKETS, SHORT};
use std::process::Abort;
use std::test::Fail;
use test_frames::{DATAGRAM, DATAGRAM6};

/// A packet and what it is to be read as.
pub struct Captured6 {
    pub frame: &'static [u8],
    /// The extension headers that are walked: the number of each, and where it ends.
    pub extensions: &'static [(u8, usize)],
    pub protocol: u8,
    pub total: u32,
    pub offset: u16,
    pub ports: Option<(u16, u16)>,
    pub tcp_flags: Option<u8>,
    pub icmp6_type: Option<u8>,
}

/// 2001:db8::1, and the host behind it.
const SOURCE: Addr6 = Addr6(0x2001_0db8_0000_0000_0000_0000_0000_0001);

const DESTINATION: Addr6 = Addr6(0x2001_0db8_0000_0000_0000_0000_0000_0002);

fn read<'a>(rt: &impl Abort, link: Link, frame: &'a [u8]) -> AnyPacket<'a> {
    assert!(rt; frame.len() < 65_536);
    read_any(link, frame)
}

fn read_six<'a>(rt: &impl Abort, frame: &'a [u8]) -> Ip6<'a> {
    match read(rt, Link::Raw, frame) {
        AnyPacket::Ip(AnyIp::Six(packet)) => packet,
        other => panic!(rt; "{frame:?} is {other:?}"),
    }
}

#[test]
fn fields_of_ipv6_packets(rt: HostRuntime) {
    for (place, told) in PACKETS.iter().enumerate() {
        let packet = read_six(&rt, told.frame);
        assert_eq!(rt; packet.source(), SOURCE, "packet {place}");
        assert_eq!(rt; packet.destination(), DESTINATION, "packet {place}");
        assert_eq!(rt; packet.protocol(), told.protocol, "packet {place}");
        assert_eq!(rt; packet.total(), told.total, "packet {place}");
        assert_eq!(rt; packet.offset(), told.offset, "packet {place}");
        assert_eq!(rt; packet.ports(), told.ports, "packet {place}");
        assert_eq!(rt; packet.tcp_flags(), told.tcp_flags, "packet {place}");
        assert_eq!(rt; packet.icmp6_type(), told.icmp6_type, "packet {place}");
        let either = AnyIp::Six(packet);
        assert_eq!(rt; either.protocol(), told.protocol, "packet {place}");
        assert_eq!(rt; either.total(), told.total, "packet {place}");
        assert_eq!(rt; either.offset(), told.offset, "packet {place}");
        assert_eq!(rt; either.ports(), told.ports, "packet {place}");
        assert_eq!(rt; either.tcp_flags(), told.tcp_flags, "packet {place}");
    }
}

#[test]
fn packets_without_a_whole_transport_header(rt: HostRuntime) {
    for (place, (frame, protocol, total, offset, behind)) in SHORT.into_iter().enumerate() {
        let packet = read_six(&rt, frame);
        assert_eq!(rt; packet.protocol(), protocol, "packet {place}");
        assert_eq!(rt; packet.total(), total, "packet {place}");
        assert_eq!(rt; packet.offset(), offset, "packet {place}");
        assert_eq!(rt; packet.transport().len(), behind, "packet {place}");
        assert_eq!(rt; packet.ports(), None, "packet {place}");
        assert_eq!(rt; packet.tcp_flags(), None, "packet {place}");
        assert_eq!(rt; packet.icmp6_type(), None, "packet {place}");
    }
}

/// The protocol of a packet of which so many bytes are there: the first extension header that isn't
/// whole, or what stands behind them all.
fn protocol_within(told: &Captured6, size: usize) -> u8 {
    told.extensions
        .iter()
        .find(|(_, end)| size < *end)
        .map_or(told.protocol, |(number, _)| *number)
}

/// Where the last extension header ends.
fn end_of_extensions(told: &Captured6) -> usize {
    told.extensions.last().map_or(40, |(_, end)| *end)
}

/// Whether so many bytes of the packet's transport header are there that its fields are read.
fn is_there(told: &Captured6, size: usize) -> bool {
    let needed = match told.protocol {
        6 => 20,
        17 => 8,
        58 => 4,
        _ => 0,
    };
    size.saturating_sub(end_of_extensions(told)) >= needed
}

fn assert_tells_cut(rt: &impl Abort, told: &Captured6, size: usize, packet: &Ip6<'_>) {
    assert_eq!(rt; packet.protocol(), protocol_within(told, size), "{size}");
    if is_there(told, size) {
        assert_eq!(rt; packet.ports(), told.ports, "{size}");
        assert_eq!(rt; packet.tcp_flags(), told.tcp_flags, "{size}");
        assert_eq!(rt; packet.icmp6_type(), told.icmp6_type, "{size}");
    } else {
        assert_eq!(rt; packet.ports(), None, "{size}");
        assert_eq!(rt; packet.tcp_flags(), None, "{size}");
        assert_eq!(rt; packet.icmp6_type(), None, "{size}");
    }
}

fn assert_cut(rt: &impl Abort, told: &Captured6, size: usize) {
    let Some(cut) = told.frame.get(..size) else {
        return;
    };
    if size < 40 {
        assert!(rt;
            matches!(read_raw(rt, cut), AnyPacket::Malformed(2)),
            "{cut:?}"
        );
    } else {
        assert_tells_cut(rt, told, size, &read_six(rt, cut));
    }
}

fn read_raw<'a>(rt: &impl Abort, frame: &'a [u8]) -> AnyPacket<'a> {
    read(rt, Link::Raw, frame)
}

#[test]
fn each_cut_of_each_packet(rt: HostRuntime) {
    for told in &PACKETS {
        for size in 1..told.frame.len() {
            assert_cut(&rt, told, size);
        }
    }
}

/// Which version a frame is read as, or which kind of malformed it is.
#[derive(Clone, Copy, Debug, PartialEq, Eq)]
pub enum Kind {
    Four,
    Six,
    Other,
    Malformed(u8),
}

fn kind_of(packet: &AnyPacket<'_>) -> Kind {
    match packet {
        AnyPacket::Ip(AnyIp::Four(_)) => Kind::Four,
        AnyPacket::Ip(AnyIp::Six(_)) => Kind::Six,
        AnyPacket::Other => Kind::Other,
        AnyPacket::Malformed(kind) => Kind::Malformed(*kind),
    }
}

#[test]
fn link_headers_tell_the_version(rt: HostRuntime) -> Result<(), Fail> {
    for (link, header, six, four) in HEADERS {
        let frame = behind(rt.alloc(), header, DATAGRAM6)?;
        assert_eq!(rt;
            kind_of(&read(&rt, link, &frame)),
            six,
            "{link:?} {header:?}"
        );
        let frame = behind(rt.alloc(), header, DATAGRAM)?;
        assert_eq!(rt;
            kind_of(&read(&rt, link, &frame)),
            four,
            "{link:?} {header:?}"
        );
    }
    Ok(())
}

#[test]
fn malformed_kinds_of_either_version(rt: HostRuntime) {
    for (link, frame, kind) in FRAMES {
        assert_eq!(rt;
            kind_of(&read(&rt, link, frame)),
            kind,
            "{link:?} {frame:?}"
        );
    }
}

#[test]
fn version_behind_a_link_header(rt: HostRuntime) -> Result<(), Fail> {
    for version in 0..16u8 {
        let start = [0x1c, 0, 0, 0, 16 * version];
        let frame = behind(rt.alloc(), &start, &DATAGRAM6[1..])?;
        let kind = if version == 6 {
            Kind::Six
        } else {
            Kind::Malformed(3)
        };
        assert_eq!(rt; kind_of(&read(&rt, Link::Null, &frame)), kind, "{version}");
    }
    Ok(())
}
