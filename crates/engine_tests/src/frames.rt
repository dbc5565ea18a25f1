use fw_base::{Direction, Link, Name, Port};
use ip6_headers::{AnyIp, AnyPacket, read_any};
use std::alloc::Global;
use std::process::Abort;
use std::test::Fail;

/// Where the frames come in.
pub fn incoming(alloc: Global) -> Result<Port, Fail> {
    Ok(Port {
        direction: Direction::In,
        interface: Name::new(alloc, b"em0")?,
    })
}

/// The packet of a frame on a raw link.
pub fn packet_of<'a>(rt: &impl Abort, frame: &'a [u8]) -> Result<AnyIp<'a>, Fail> {
    assert!(rt; frame.len() < 65_536);
    match read_any(Link::Raw, frame) {
        AnyPacket::Ip(packet) => Ok(packet),
        _ => Err(Fail::from("no packet")),
    }
}
