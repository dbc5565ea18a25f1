//! Packets of IPv4 (RFC 791) and IPv6 (RFC 8200), without a link header, that the tests of several crates share.
//!
//! Tests: none.
#![tactic(auto)]

/// A SYN from 10.0.0.1, port 1025, to 192.0.2.1, port 80.
pub const SYN: &[u8] = &[
    0x45, 0, 0, 0x28, 0, 0, 0, 0, 0x40, 6, 0, 0, 10, 0, 0, 1, 0xc0, 0, 2, 1, 4, 1, 0, 0x50, 0, 0,
    0, 0, 0, 0, 0, 0, 0x50, 2, 0xff, 0xff, 0, 0, 0, 0,
];

/// The SYN with ACK that answers it.
pub const SYN_ACK: &[u8] = &[
    0x45, 0, 0, 0x28, 0, 0, 0, 0, 0x40, 6, 0, 0, 0xc0, 0, 2, 1, 10, 0, 0, 1, 0, 0x50, 4, 1, 0, 0,
    0, 0, 0, 0, 0, 0, 0x50, 18, 0xff, 0xff, 0, 0, 0, 0,
];

/// An ACK, as the SYN went.
pub const ACK: &[u8] = &[
    0x45, 0, 0, 0x28, 0, 0, 0, 0, 0x40, 6, 0, 0, 10, 0, 0, 1, 0xc0, 0, 2, 1, 4, 1, 0, 0x50, 0, 0,
    0, 0, 0, 0, 0, 0, 0x50, 16, 0xff, 0xff, 0, 0, 0, 0,
];

/// A FIN with ACK, as the SYN went.
pub const FIN_ACK: &[u8] = &[
    0x45, 0, 0, 0x28, 0, 0, 0, 0, 0x40, 6, 0, 0, 10, 0, 0, 1, 0xc0, 0, 2, 1, 4, 1, 0, 0x50, 0, 0,
    0, 0, 0, 0, 0, 0, 0x50, 17, 0xff, 0xff, 0, 0, 0, 0,
];

/// The FIN with ACK that answers it.
pub const FIN_ACK_BACK: &[u8] = &[
    0x45, 0, 0, 0x28, 0, 0, 0, 0, 0x40, 6, 0, 0, 0xc0, 0, 2, 1, 10, 0, 0, 1, 0, 0x50, 4, 1, 0, 0,
    0, 0, 0, 0, 0, 0, 0x50, 17, 0xff, 0xff, 0, 0, 0, 0,
];

/// UDP from 10.0.0.1, port 5, to 192.0.2.1, port 6.
pub const DATAGRAM: &[u8] = &[
    0x45, 0, 0, 0x1c, 0, 0, 0, 0, 0x40, 17, 0, 0, 10, 0, 0, 1, 0xc0, 0, 2, 1, 0, 5, 0, 6, 0, 8, 0,
    0,
];

/// A later fragment of UDP from 10.0.0.1 to 192.0.2.1: its bytes would be the ports 5 and 53.
pub const FRAGMENT: &[u8] = &[
    0x45, 0, 0, 0x1c, 0, 0, 0, 0xb9, 0x40, 17, 0, 0, 10, 0, 0, 1, 0xc0, 0, 2, 1, 0, 5, 0, 53, 0, 8,
    0, 0,
];

/// An ICMP echo request from 10.0.0.1 to 192.0.2.1.
pub const ECHO: &[u8] = &[
    0x45, 0, 0, 0x1c, 0, 0, 0, 0, 0x40, 1, 0, 0, 10, 0, 0, 1, 0xc0, 0, 2, 1, 8, 0, 0, 0, 0, 0, 0, 0,
];

/// UDP from 2001:db8::1, port 5, to 2001:db8::2, port 6.
pub const DATAGRAM6: &[u8] =
    b"\x60\x00\x00\x00\x00\x08\x11\x40\x20\x01\x0d\xb8\x00\x00\x00\x00\x00\x00\x00\x00\x00\x00\x00\x01\x20\x01\x0d\xb8\x00\x00\x00\x00\x00\x00\x00\x00\x00\x00\x00\x02\x00\x05\x00\x06\x00\x08\x00\x00";

/// That datagram behind hop-by-hop options.
pub const OPTIONS6: &[u8] =
    b"\x60\x00\x00\x00\x00\x10\x00\x40\x20\x01\x0d\xb8\x00\x00\x00\x00\x00\x00\x00\x00\x00\x00\x00\x01\x20\x01\x0d\xb8\x00\x00\x00\x00\x00\x00\x00\x00\x00\x00\x00\x02\x11\x00\x01\x04\x00\x00\x00\x00\x00\x05\x00\x06\x00\x08\x00\x00";

/// The first fragment of such a datagram.
pub const FIRST_FRAGMENT6: &[u8] =
    b"\x60\x00\x00\x00\x00\x10\x2c\x40\x20\x01\x0d\xb8\x00\x00\x00\x00\x00\x00\x00\x00\x00\x00\x00\x01\x20\x01\x0d\xb8\x00\x00\x00\x00\x00\x00\x00\x00\x00\x00\x00\x02\x11\x00\x00\x01\x00\x00\x00\x07\x00\x05\x00\x06\x00\x08\x00\x00";

/// IPv6 from 2001:db8::1 to 2001:db8::2 without a next header (RFC 8200 section 4.7).
pub const SIX: &[u8] = &[
    0x60, 0, 0, 0, 0, 0, 59, 64, 0x20, 1, 0xd, 0xb8, 0, 0, 0, 0, 0, 0, 0, 0, 0, 0, 0, 1, 0x20, 1,
    0xd, 0xb8, 0, 0, 0, 0, 0, 0, 0, 0, 0, 0, 0, 2,
];
