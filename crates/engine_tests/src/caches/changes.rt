//! Packets without a link header, each with one byte of it changed, and whether the key stays the same.
use test_frames::{DATAGRAM, ECHO, FRAGMENT, SYN};

/// A packet, and the same with another byte at a place.
pub struct Change {
    pub what: &'static str,
    pub packet: &'static [u8],
    pub place: usize,
    pub byte: u8,
    pub is_equal: bool,
}

/// A datagram of UDP from port 0 to port 0.
pub const PORTLESS: &[u8] =
    b"\x45\x00\x00\x1c\x00\x00\x00\x00\x40\x11\x00\x00\x0a\x00\x00\x01\xc0\x00\x02\x01\x00\x00\x00\x00\x00\x08\x00\x00";

/// A datagram with the option to record the route, and the end of the options.
pub const ROUTED: &[u8] =
    b"\x46\x00\x00\x20\x00\x00\x00\x00\x40\x11\x00\x00\x0a\x00\x00\x01\xc0\x00\x02\x01\x07\x03\x04\x00\x00\x05\x00\x06\x00\x08\x00\x00";

/// A datagram with an option that no rule can name.
pub const ALERTED: &[u8] =
    b"\x46\x00\x00\x20\x00\x00\x00\x00\x40\x11\x00\x00\x0a\x00\x00\x01\xc0\x00\x02\x01\x94\x04\x00\x00\x00\x05\x00\x06\x00\x08\x00\x00";

/// What is changed, and whether the key stays the same.
pub static CHANGES: [Change; 31] = [
    Change {
        what: "another type of service",
        packet: SYN,
        place: 1,
        byte: 16,
        is_equal: true,
    },
    Change {
        what: "a longer packet, of which no more was captured",
        packet: SYN,
        place: 3,
        byte: 41,
        is_equal: true,
    },
    Change {
        what: "a packet too short for the header of TCP",
        packet: SYN,
        place: 3,
        byte: 39,
        is_equal: false,
    },
    Change {
        what: "another identification",
        packet: SYN,
        place: 5,
        byte: 9,
        is_equal: true,
    },
    Change {
        what: "don't fragment",
        packet: SYN,
        place: 6,
        byte: 64,
        is_equal: true,
    },
    Change {
        what: "more fragments",
        packet: SYN,
        place: 6,
        byte: 32,
        is_equal: true,
    },
    Change {
        what: "a later fragment",
        packet: SYN,
        place: 7,
        byte: 1,
        is_equal: false,
    },
    Change {
        what: "another time to live",
        packet: SYN,
        place: 8,
        byte: 1,
        is_equal: true,
    },
    Change {
        what: "another protocol",
        packet: SYN,
        place: 9,
        byte: 17,
        is_equal: false,
    },
    Change {
        what: "another source",
        packet: SYN,
        place: 15,
        byte: 2,
        is_equal: false,
    },
    Change {
        what: "another destination",
        packet: SYN,
        place: 19,
        byte: 2,
        is_equal: false,
    },
    Change {
        what: "another source port",
        packet: SYN,
        place: 21,
        byte: 2,
        is_equal: false,
    },
    Change {
        what: "another destination port",
        packet: SYN,
        place: 23,
        byte: 81,
        is_equal: false,
    },
    Change {
        what: "another sequence number",
        packet: SYN,
        place: 27,
        byte: 1,
        is_equal: true,
    },
    Change {
        what: "SYN with ACK",
        packet: SYN,
        place: 33,
        byte: 18,
        is_equal: false,
    },
    Change {
        what: "SYN with CWR",
        packet: SYN,
        place: 33,
        byte: 130,
        is_equal: false,
    },
    Change {
        what: "another window",
        packet: SYN,
        place: 34,
        byte: 0,
        is_equal: true,
    },
    Change {
        what: "another source port of UDP",
        packet: DATAGRAM,
        place: 21,
        byte: 7,
        is_equal: false,
    },
    Change {
        what: "another checksum of UDP",
        packet: DATAGRAM,
        place: 27,
        byte: 1,
        is_equal: true,
    },
    Change {
        what: "port 0 is a port",
        packet: PORTLESS,
        place: 3,
        byte: 27,
        is_equal: false,
    },
    Change {
        what: "a reply",
        packet: ECHO,
        place: 20,
        byte: 0,
        is_equal: false,
    },
    Change {
        what: "another code",
        packet: ECHO,
        place: 21,
        byte: 1,
        is_equal: true,
    },
    Change {
        what: "another offset",
        packet: FRAGMENT,
        place: 7,
        byte: 186,
        is_equal: true,
    },
    Change {
        what: "no offset",
        packet: FRAGMENT,
        place: 7,
        byte: 0,
        is_equal: false,
    },
    Change {
        what: "other ports behind a fragment",
        packet: FRAGMENT,
        place: 21,
        byte: 7,
        is_equal: true,
    },
    Change {
        what: "a time stamp for a recorded route",
        packet: ROUTED,
        place: 20,
        byte: 68,
        is_equal: false,
    },
    Change {
        what: "a strict route for a recorded one",
        packet: ROUTED,
        place: 20,
        byte: 137,
        is_equal: false,
    },
    Change {
        what: "a loose route for a recorded one",
        packet: ROUTED,
        place: 20,
        byte: 131,
        is_equal: false,
    },
    Change {
        what: "no option",
        packet: ROUTED,
        place: 20,
        byte: 0,
        is_equal: false,
    },
    Change {
        what: "another place in the recorded route",
        packet: ROUTED,
        place: 22,
        byte: 8,
        is_equal: true,
    },
    Change {
        what: "no option for one without a name",
        packet: ALERTED,
        place: 20,
        byte: 0,
        is_equal: true,
    },
];
