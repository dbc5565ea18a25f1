mod frames;
mod links;
mod made;
mod malformed;

use crate::frames::behind;
use frames::CAPTURED;
use fw_base::{Addr, Link};
use links::{READ_AS_IP, READ_AS_OTHER};
use made::PACKETS;
use malformed::MALFORMED_FRAMES;
use packet_headers::{Flow, Ip4, Packet, flow, read_packet};
use std::alloc::{AllocError, Global};
use std::process::Abort;
use std::test::Fail;
use test_frames::SYN;

/// A frame, and what it tells as `told_by` writes it; `other` for one that is no IPv4.
pub type Row = (Link, &'static [u8], &'static str);

fn read<'a>(rt: &impl Abort, link: Link, frame: &'a [u8]) -> Packet<'a> {
    assert!(rt; frame.len() < 65_536);
    read_packet(link, frame)
}

/// All that a packet tells, in words; what it doesn't have is left out.
fn told_by(alloc: Global, packet: &Ip4<'_>) -> Result<String, AllocError> {
    let (source, destination) = (packet.source(), packet.destination());
    let (protocol, total, offset) = (packet.protocol(), packet.total(), packet.offset());
    let mut text = format!(in alloc;
        "{source} > {destination} protocol {protocol} total {total} offset {offset}"
    )?;
    if let Some((source, destination)) = packet.ports() {
        text.push_str(&format!(in alloc; " ports {source} {destination}")?)?;
    }
    if let Some(flags) = packet.tcp_flags() {
        text.push_str(&format!(in alloc; " flags {flags}")?)?;
    }
    if let Some(kind) = packet.icmp_type() {
        text.push_str(&format!(in alloc; " icmp {kind}")?)?;
    }
    if flow(packet).is_some() {
        text.push_str(" flow")?;
    }
    for kind in 0..=255u8 {
        if packet.has_option(kind) {
            text.push_str(&format!(in alloc; " option {kind}")?)?;
        }
    }
    Ok(text)
}

/// What a frame is read as, in words.
fn read_text(
    rt: &impl Abort,
    alloc: Global,
    link: Link,
    frame: &[u8],
) -> Result<String, AllocError> {
    match read(rt, link, frame) {
        Packet::Ip(packet) => told_by(alloc, &packet),
        Packet::Other => "other".to_string(alloc),
        Packet::Malformed(kind) => format!(in alloc; "malformed {kind}"),
    }
}

fn assert_all_tell(rt: &impl Abort, alloc: Global, rows: &[Row]) -> Result<(), Fail> {
    for (place, (link, frame, text)) in rows.iter().enumerate() {
        let found = read_text(rt, alloc, *link, frame)?;
        assert_eq!(rt; found.as_str(), *text, "row {place}");
    }
    Ok(())
}

/// What the SYN tells.
const SYN_TELLS: &str =
    "10.0.0.1 > 192.0.2.1 protocol 6 total 40 offset 0 ports 1025 80 flags 2 flow";

#[test]
fn captured_packets_read_as_another_program_reads_them(rt: HostRuntime) -> Result<(), Fail> {
    assert_all_tell(&rt, rt.alloc(), &CAPTURED)
}

#[test]
fn fields_of_packets(rt: HostRuntime) -> Result<(), Fail> {
    assert_all_tell(&rt, rt.alloc(), &PACKETS)
}

#[test]
fn arp_is_other_and_vlan_is_read(rt: HostRuntime) -> Result<(), Fail> {
    for (link, header) in READ_AS_IP {
        let frame = behind(rt.alloc(), header, SYN)?;
        let found = read_text(&rt, rt.alloc(), link, &frame)?;
        assert_eq!(rt; found.as_str(), SYN_TELLS, "{link:?} {header:?}");
    }
    for (link, header) in READ_AS_OTHER {
        let frame = behind(rt.alloc(), header, SYN)?;
        assert!(rt;
            matches!(read(&rt, link, &frame), Packet::Other),
            "{link:?} {header:?}"
        );
    }
    Ok(())
}

#[test]
fn malformed_kinds(rt: HostRuntime) {
    for row in &MALFORMED_FRAMES {
        match read(&rt, row.link, row.frame) {
            Packet::Malformed(found) => assert_eq!(rt; found, row.kind, "{row:?}"),
            other => panic!(rt; "{other:?}"),
        }
    }
}

#[test]
fn flow_names_both_ends(rt: HostRuntime) {
    match read(&rt, Link::Raw, SYN) {
        Packet::Ip(packet) => {
            assert_eq!(rt; packet.options().len(), 0);
            assert_eq!(rt; packet.transport().len(), 20);
            let found = Some(Flow {
                protocol: 6,
                source: Addr(0x0a00_0001),
                source_port: 1025,
                destination: Addr(0xc000_0201),
                destination_port: 80,
            });
            assert_eq!(rt; flow(&packet), found);
        }
        other => panic!(rt; "{other:?}"),
    }
}
