use std::alloc::Global;
use std::test::Fail;

/// An address and a port.
pub type End = ([u8; 4], u16);

/// A packet of IPv4: TCP of 40 bytes with these flags, UDP or ICMP of 28 bytes, and a later fragment of UDP.
#[derive(Clone, Copy)]
pub enum Packet {
    Tcp(End, End, u8),
    Udp(End, End),
    Icmp([u8; 4], [u8; 4], u8),
    Fragment([u8; 4], [u8; 4]),
}

/// An IPv4 header with these ends; `fields` are its total length, its second fragment byte and its protocol.
fn begun(
    alloc: Global,
    fields: (u8, u8, u8),
    source: [u8; 4],
    destination: [u8; 4],
) -> Result<Vec<u8>, Fail> {
    let (total, fragment, protocol) = fields;
    let mut bytes = Vec::new(alloc);
    bytes.extend_from_slice(&[0x45, 0, 0, total, 0, 0, 0, fragment, 0x40, protocol, 0, 0])?;
    bytes.extend_from_slice(&source)?;
    bytes.extend_from_slice(&destination)?;
    Ok(bytes)
}

/// The same with the ports of both ends.
fn with_ports(
    alloc: Global,
    fields: (u8, u8, u8),
    source: End,
    destination: End,
) -> Result<Vec<u8>, Fail> {
    let mut bytes = begun(alloc, fields, source.0, destination.0)?;
    bytes.extend_from_slice(&source.1.to_be_bytes())?;
    bytes.extend_from_slice(&destination.1.to_be_bytes())?;
    Ok(bytes)
}

impl Packet {
    /// Its bytes, from its IPv4 header on.
    pub fn bytes(self, alloc: Global) -> Result<Vec<u8>, Fail> {
        match self {
            Packet::Tcp(source, destination, flags) => {
                let mut bytes = with_ports(alloc, (40, 0, 6), source, destination)?;
                bytes.extend_from_slice(&[
                    0, 0, 0, 0, 0, 0, 0, 0, 0x50, flags, 0xff, 0xff, 0, 0, 0, 0,
                ])?;
                Ok(bytes)
            }
            Packet::Udp(source, destination) => {
                let mut bytes = with_ports(alloc, (28, 0, 17), source, destination)?;
                bytes.extend_from_slice(&[0, 8, 0, 0])?;
                Ok(bytes)
            }
            Packet::Icmp(source, destination, kind) => {
                let mut bytes = begun(alloc, (28, 0, 1), source, destination)?;
                bytes.extend_from_slice(&[kind, 0, 0, 0, 0, 0, 0, 0])?;
                Ok(bytes)
            }
            Packet::Fragment(source, destination) => {
                let mut bytes = begun(alloc, (28, 0xb9, 17), source, destination)?;
                bytes.extend_from_slice(&[0, 0, 0, 0, 0, 8, 0, 0])?;
                Ok(bytes)
            }
        }
    }
}
