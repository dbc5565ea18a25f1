use super::bodies::{Held, check};
use super::captures::raw;
use super::{assert_seen, replay};
use std::alloc::Global;
use std::process::Abort;
use std::sync::Wait;
use std::test::Fail;
use std::thread::Threads;
use test_frames::{DATAGRAM6, ECHO, FIRST_FRAGMENT6, OPTIONS6, SYN};

/// A SYN from fe80::1, port 1025, to 2001:db8::2, port 80.
const SYN6: &[u8] =
    b"\x60\x00\x00\x00\x00\x14\x06\x40\xfe\x80\x00\x00\x00\x00\x00\x00\x00\x00\x00\x00\x00\x00\x00\x01\x20\x01\x0d\xb8\x00\x00\x00\x00\x00\x00\x00\x00\x00\x00\x00\x02\x04\x01\x00\x50\x00\x00\x00\x00\x00\x00\x00\x00\x50\x02\xff\xff\x00\x00\x00\x00";

/// An ICMPv6 echo request from 2001:db8::1 to 2001:db8::2.
const ECHO6: &[u8] =
    b"\x60\x00\x00\x00\x00\x08\x3a\x40\x20\x01\x0d\xb8\x00\x00\x00\x00\x00\x00\x00\x00\x00\x00\x00\x01\x20\x01\x0d\xb8\x00\x00\x00\x00\x00\x00\x00\x00\x00\x00\x00\x02\x80\x00\x00\x00\x00\x01\x00\x01";

/// A later fragment of UDP from 2001:db8::1 to 2001:db8::2: its bytes would be the ports 5 and 53.
const FRAGMENT6: &[u8] =
    b"\x60\x00\x00\x00\x00\x10\x2c\x40\x20\x01\x0d\xb8\x00\x00\x00\x00\x00\x00\x00\x00\x00\x00\x00\x01\x20\x01\x0d\xb8\x00\x00\x00\x00\x00\x00\x00\x00\x00\x00\x00\x02\x11\x00\x05\xc8\x00\x00\x00\x07\x00\x05\x00\x35\x00\x08\x00\x00";

/// Destination options between these two, of 16 bytes, of which 12 are within the payload length.
const SHORT6: &[u8] =
    b"\x60\x00\x00\x00\x00\x0c\x3c\x40\x20\x01\x0d\xb8\x00\x00\x00\x00\x00\x00\x00\x00\x00\x00\x00\x01\x20\x01\x0d\xb8\x00\x00\x00\x00\x00\x00\x00\x00\x00\x00\x00\x02\x11\x01\x01\x0c\x00\x00\x00\x00\x00\x00\x00\x00\x00\x00\x00\x00\x00\x05\x00\x06\x00\x08\x00\x00";

/// ICMPv6's protocol and its type 128 in IPv4, from 10.0.0.1 to 192.0.2.1.
const ECHO6_IN_4: &[u8] = &[
    0x45, 0, 0, 0x1c, 0, 0, 0, 0, 0x40, 58, 0, 0, 10, 0, 0, 1, 0xc0, 0, 2, 1, 0x80, 0, 0, 0, 0, 0,
    0, 0,
];

/// ICMP's protocol and its type 8 in IPv6, from 2001:db8::1 to 2001:db8::2.
const ECHO_IN_6: &[u8] =
    b"\x60\x00\x00\x00\x00\x08\x01\x40\x20\x01\x0d\xb8\x00\x00\x00\x00\x00\x00\x00\x00\x00\x00\x00\x01\x20\x01\x0d\xb8\x00\x00\x00\x00\x00\x00\x00\x00\x00\x00\x00\x02\x08\x00\x00\x00\x00\x01\x00\x01";

/// For the datagram, the SYN, the echo request, the later fragment, the destination options, and a SYN and
/// an echo request of IPv4.
const ROWS: [Held; 47] = [
    ("ip from any to any", "+++++++"),
    ("ip4 from any to any", "-----++"),
    ("ipv4 from any to any", "-----++"),
    ("ip6 from any to any", "+++++--"),
    ("ipv6 from any to any", "+++++--"),
    ("udp from any to any", "+--+---"),
    ("tcp from any to any", "-+---+-"),
    ("ipv6-icmp from any to any", "--+----"),
    ("58 from any to any", "--+----"),
    ("60 from any to any", "----+--"),
    ("icmp from any to any", "------+"),
    ("ip from 2001:db8::/32 to any", "+-+++--"),
    ("ip from not 2001:db8::/32 to any", "-+---++"),
    ("ip from fe80::/10 to any", "-+-----"),
    ("ip from ::/0 to any", "+++++--"),
    ("ip from not ::/0 to any", "-----++"),
    ("ip from 0.0.0.0/0 to any", "-----++"),
    ("ip from not 0.0.0.0/0 to any", "+++++--"),
    ("ip from me to any", "-----++"),
    ("ip from not me to any", "+++++--"),
    ("ip from table(nets) to any", "-----++"),
    ("ip from not table(nets) to any", "+++++--"),
    ("ip from table(nets,1) to any", "-----++"),
    ("ip from 10.0.0.0/8,2001:db8::1 to any", "+-+++++"),
    ("ip from any to 2001:db8::2", "+++++--"),
    ("ip from any to 2001:db8::3", "-------"),
    ("ip from any 5 to any", "+------"),
    ("ip from any not 5 to any", "-++++++"),
    ("ip from any to any 80", "-+---+-"),
    ("ip from any to any frag", "---+---"),
    ("ip from any to any not frag", "+++-+++"),
    ("ip from any to any setup", "-+---+-"),
    ("ip from any to any tcpflags syn,!ack", "-+---+-"),
    ("ip from any to any established", "-------"),
    ("ip from any to any icmptypes 8", "------+"),
    ("ip from any to any not icmptypes 8", "++++++-"),
    ("ip from any to any icmp6types 1,128", "--+----"),
    ("ip from any to any icmp6types 8", "-------"),
    ("ip from any to any not icmp6types 128", "++-++++"),
    ("ip from any to any ipoptions !rr", "-----++"),
    ("ip from any to any not ipoptions !rr", "+++++--"),
    ("ip from any to any lookup src-ip nets", "-----++"),
    ("ip from any to any not lookup dst-ip nets", "+++++++"),
    ("ip from any to any lookup dst-port ports", "-+---+-"),
    ("ip6 from 10.0.0.0/8 to any", "-------"),
    ("ip4 from 2001:db8::/32 to any", "-------"),
    ("ip6 from any to any in recv em0", "+++++--"),
];

#[test]
fn bodies_hold_of_either_version(rt: HostRuntime) -> Result<(), Fail> {
    let alloc = rt.alloc();
    let packets = [DATAGRAM6, SYN6, ECHO6, FRAGMENT6, SHORT6, SYN, ECHO];
    check(&rt, alloc, "in:em0:c", &raw(alloc, &packets)?, &ROWS)
}

/// A row's name, its script, its frame on a raw link, and the whole text of its run, whose status is 0.
type Framed = (&'static str, &'static str, &'static [u8], &'static str);

const FRAMES: [Framed; 6] = [
    (
        "ipv6_prefix",
        "add 100 allow ip6 from 2001:db8::/32 to any\n",
        DATAGRAM6,
        "1.1 allow 00100 at 1\nend 1 records 1\neditions 1\nrules 2\n00100 1 48 allow ip6 from 2001:db8::/32 to any\n65535 0 0 set 31 deny ip from any to any\nclock 0\nstates 0\n",
    ),
    // This worked row is about any header that extends IPv6's: its frame has hop-by-hop options and no fragment
    // header.
    (
        "ipv6_fragment_header",
        "add 100 deny udp from any to any 6\n",
        OPTIONS6,
        "1.1 deny 00100 at 1\nend 1 records 1\neditions 1\nrules 2\n00100 1 56 deny udp from any to any 6\n65535 0 0 set 31 deny ip from any to any\nclock 0\nstates 0\n",
    ),
    (
        "ports behind a fragment header",
        "add 100 deny udp from any to any 6\n",
        FIRST_FRAGMENT6,
        "1.1 deny 00100 at 1\nend 1 records 1\neditions 1\nrules 2\n00100 1 56 deny udp from any to any 6\n65535 0 0 set 31 deny ip from any to any\nclock 0\nstates 0\n",
    ),
    (
        "icmp6types never holds of IPv4",
        "add 100 deny ip from any to any icmp6types 128\nadd 200 count 58 from any to any\nadd 300 allow ip from any to any not icmp6types 128\n",
        ECHO6_IN_4,
        "1.1 allow 00300 at 1\nend 1 records 1\neditions 1\nrules 4\n00100 0 0 deny ip from any to any icmp6types 128\n00200 1 28 count 58 from any to any\n00300 1 28 allow ip from any to any not icmp6types 128\n65535 0 0 set 31 deny ip from any to any\nclock 0\nstates 0\n",
    ),
    (
        "icmptypes never holds of IPv6",
        "add 100 deny ip from any to any icmptypes 8\nadd 200 count icmp from any to any\nadd 300 allow ip from any to any not icmptypes 8\n",
        ECHO_IN_6,
        "1.1 allow 00300 at 1\nend 1 records 1\neditions 1\nrules 4\n00100 0 0 deny ip from any to any icmptypes 8\n00200 1 48 count icmp from any to any\n00300 1 48 allow ip from any to any not icmptypes 8\n65535 0 0 set 31 deny ip from any to any\nclock 0\nstates 0\n",
    ),
    (
        "keep-state never holds of IPv6",
        "add 100 check-state\nadd 200 allow udp from any to any keep-state\n",
        DATAGRAM6,
        "1.1 deny 65535 at 1\nend 1 records 1\neditions 1\nrules 3\n00100 0 0 check-state\n00200 0 0 allow udp from any to any keep-state\n65535 1 48 set 31 deny ip from any to any\nclock 0\nstates 0\n",
    ),
];

fn check_frame<R: Threads + Wait + Sync + Abort>(
    rt: &R,
    alloc: Global,
    (name, script, frame, text): Framed,
) -> Result<(), Fail> {
    let capture = raw(alloc, &[frame])?;
    let seen = replay(rt, alloc, script.as_bytes(), &capture, &[])?;
    assert_seen(rt, &seen, name, 0, text.as_bytes());
    Ok(())
}

#[test]
fn ipv6_rows(rt: HostRuntime) -> Result<(), Fail> {
    for frame in FRAMES {
        check_frame(&rt, rt.alloc(), frame)?;
    }
    Ok(())
}
