/// The names of the codes of `unreach` from 0 on (RFC 792, RFC 1812 section 5.2.7.1).
pub const UNREACH_NAMES: [&[u8]; 16] = [
    b"net",
    b"host",
    b"protocol",
    b"port",
    b"needfrag",
    b"srcfail",
    b"net-unknown",
    b"host-unknown",
    b"isolated",
    b"net-prohib",
    b"host-prohib",
    b"tosnet",
    b"toshost",
    b"filter-prohib",
    b"host-precedence",
    b"precedence-cutoff",
];

/// The names of bits 0 to 5 of a mask of TCP flags.
pub const FLAG_NAMES: [&[u8]; 6] = [b"fin", b"syn", b"rst", b"psh", b"ack", b"urg"];

/// The names of bits 0 to 3 of a mask of IP options.
pub const OPTION_NAMES: [&[u8]; 4] = [b"ssrr", b"lsrr", b"rr", b"ts"];
