use super::Kind;
use fw_base::Link;

/// Link headers, and what is read where an IPv6 and an IPv4 packet stand behind them.
#[rattlefmt::skip]
pub static HEADERS: [(Link, &[u8], Kind, Kind); 22] = [
    (Link::Null, b"\x18\x00\x00\x00", Kind::Six, Kind::Malformed(2)),
    (Link::Null, b"\x00\x00\x00\x18", Kind::Six, Kind::Malformed(2)),
    (Link::Null, b"\x1c\x00\x00\x00", Kind::Six, Kind::Malformed(2)),
    (Link::Null, b"\x00\x00\x00\x1c", Kind::Six, Kind::Malformed(2)),
    (Link::Null, b"\x1e\x00\x00\x00", Kind::Six, Kind::Malformed(2)),
    (Link::Null, b"\x00\x00\x00\x1e", Kind::Six, Kind::Malformed(2)),
    (Link::Null, b"\x02\x00\x00\x00", Kind::Malformed(3), Kind::Four),
    (Link::Null, b"\x00\x00\x00\x02", Kind::Malformed(3), Kind::Four),
    (Link::Null, b"\x0a\x00\x00\x00", Kind::Other, Kind::Other),
    (Link::Null, b"\x00\x00\x1c\x00", Kind::Other, Kind::Other),
    (Link::Ethernet, b"\x02\x00\x00\x00\x00\x01\x02\x00\x00\x00\x00\x02\x86\xdd", Kind::Six, Kind::Malformed(2)),
    (Link::Ethernet, b"\x02\x00\x00\x00\x00\x01\x02\x00\x00\x00\x00\x02\x81\x00\x00\x05\x86\xdd", Kind::Six, Kind::Malformed(2)),
    (Link::Ethernet, b"\x02\x00\x00\x00\x00\x01\x02\x00\x00\x00\x00\x02\x08\x00", Kind::Malformed(3), Kind::Four),
    (Link::Ethernet, b"\x02\x00\x00\x00\x00\x01\x02\x00\x00\x00\x00\x02\x81\x00\x00\x05\x08\x00", Kind::Malformed(3), Kind::Four),
    (Link::Ethernet, b"\x02\x00\x00\x00\x00\x01\x02\x00\x00\x00\x00\x02\x81\x00\x00\x05\x81\x00\x00\x06\x86\xdd", Kind::Other, Kind::Other),
    (Link::Ethernet, b"\x02\x00\x00\x00\x00\x01\x02\x00\x00\x00\x00\x02\x86\xde", Kind::Other, Kind::Other),
    (Link::Ethernet, b"\x02\x00\x00\x00\x00\x01\x02\x00\x00\x00\x00\x02\x08\x06", Kind::Other, Kind::Other),
    (Link::Raw, b"", Kind::Six, Kind::Four),
    (Link::Cooked, b"\x00\x00\x00\x01\x00\x06\x02\x00\x00\x00\x00\x02\x00\x00\x86\xdd", Kind::Six, Kind::Malformed(2)),
    (Link::Cooked, b"\x00\x00\x00\x01\x00\x06\x02\x00\x00\x00\x00\x02\x00\x00\x08\x00", Kind::Malformed(3), Kind::Four),
    (Link::Cooked, b"\x00\x00\x00\x01\x00\x06\x02\x00\x00\x00\x00\x02\x86\xdd\x00\x00", Kind::Other, Kind::Other),
    (Link::Cooked, b"\x00\x00\x00\x01\x00\x06\x02\x00\x00\x00\x00\x02\x00\x00\x81\x00", Kind::Other, Kind::Other),
];

/// Frames that end within a header.
#[rattlefmt::skip]
pub static FRAMES: [(Link, &[u8], Kind); 9] = [
    (Link::Null, b"\x1c\x00\x00", Kind::Malformed(1)),
    (Link::Null, b"\x1c\x00\x00\x00", Kind::Malformed(2)),
    (Link::Ethernet, b"\x02\x00\x00\x00\x00\x01\x02\x00\x00\x00\x00\x02\x86", Kind::Malformed(1)),
    (Link::Ethernet, b"\x02\x00\x00\x00\x00\x01\x02\x00\x00\x00\x00\x02\x86\xdd", Kind::Malformed(2)),
    (Link::Ethernet, b"\x02\x00\x00\x00\x00\x01\x02\x00\x00\x00\x00\x02\x81\x00\x00\x05\x86", Kind::Malformed(1)),
    (Link::Raw, b"", Kind::Malformed(2)),
    (Link::Raw, b"\x60", Kind::Malformed(2)),
    (Link::Cooked, b"\x00\x00\x00\x01\x00\x06\x02\x00\x00\x00\x00\x02\x00\x00\x86", Kind::Malformed(1)),
    (Link::Cooked, b"\x00\x00\x00\x01\x00\x06\x02\x00\x00\x00\x00\x02\x00\x00\x86\xdd", Kind::Malformed(2)),
];
