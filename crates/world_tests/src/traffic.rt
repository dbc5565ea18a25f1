use fw_base::{Direction, Name, OutOfMemory, Port};
use std::alloc::Global;

/// The total length of each packet, in bytes.
pub(crate) const TOTAL: u64 = 28;

/// The second at which each packet was captured.
pub(crate) const SECOND: u32 = 100;

/// Where the packets of all lanes are captured.
pub(crate) fn port(alloc: Global) -> Result<Port, OutOfMemory> {
    Ok(Port {
        direction: Direction::In,
        interface: Name::new(alloc, b"em0")?,
    })
}

/// A datagram from this host of 10.0.0.0/24, port 5, to 192.0.2.1, port 6, without a link header.
pub(crate) fn datagram(host: u8) -> [u8; 28] {
    [
        0x45, 0, 0, 28, 0, 0, 0, 0, 64, 17, 0, 0, 10, 0, 0, host, 192, 0, 2, 1, 0, 5, 0, 6, 0, 8,
        0, 0,
    ]
}

/// The answer to the datagram of that host.
pub(crate) fn answer(host: u8) -> [u8; 28] {
    [
        0x45, 0, 0, 28, 0, 0, 0, 0, 64, 17, 0, 0, 192, 0, 2, 1, 10, 0, 0, host, 0, 6, 0, 5, 0, 8,
        0, 0,
    ]
}
