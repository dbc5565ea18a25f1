use super::captures::{Packet, raw};
use super::{A, B, ROOM, Row, SERIAL, Seen, T, check as check_rows, library_of, run_over};
use std::alloc::Global;
use std::process::Abort;
use std::sync::Wait;
use std::test::Fail;
use std::thread::Threads;
use test_frames::{ECHO, FRAGMENT, SYN, SYN_ACK};

/// A reset from 10.1.2.3, port 5000, to 10.2.2.3, port 443.
const RESET: &[u8] = &[
    0x45, 0, 0, 0x28, 0, 0, 0, 0, 0x40, 6, 0, 0, 10, 1, 2, 3, 10, 2, 2, 3, 0x13, 0x88, 1, 0xbb, 0,
    0, 0, 0, 0, 0, 0, 0, 0x50, 4, 0xff, 0xff, 0, 0, 0, 0,
];

/// UDP from 10.0.0.1, port 5, to 192.0.2.1, port 53.
const QUERY: &[u8] = &[
    0x45, 0, 0, 0x1c, 0, 0, 0, 0, 0x40, 17, 0, 0, 10, 0, 0, 1, 0xc0, 0, 2, 1, 0, 5, 0, 53, 0, 8, 0,
    0,
];

/// The SYN, of which 19 bytes of TCP's header were captured.
const SHORT_SYN: &[u8] = &[
    0x45, 0, 0, 0x28, 0, 0, 0, 0, 0x40, 6, 0, 0, 10, 0, 0, 1, 0xc0, 0, 2, 1, 4, 1, 0, 0x50, 0, 0,
    0, 0, 0, 0, 0, 0, 0x50, 2, 0xff, 0xff, 0, 0, 0,
];

/// GRE from 10.2.2.3 to 10.0.0.1, with a record route option of three bytes.
const RECORDED: &[u8] = &[
    0x46, 0, 0, 0x18, 0, 0, 0, 0, 0x40, 47, 0, 0, 10, 2, 2, 3, 10, 0, 0, 1, 7, 3, 4, 0,
];

/// What stands before each rule.
const BEFORE: &[u8] = b"local 10.0.0.1\n\
    table nets add 10.0.0.0/8 1\n\
    table nets add 10.1.0.0/16 2\n\
    table ports create type number\n\
    table ports add 80 1\n\
    add 100 allow ";

/// A rule's body, and of which of the packets it holds: `+` where it does.
pub type Held = (&'static str, &'static str);

/// For the SYN, its answer, the reset, the query, the echo request, the fragment, the short SYN and GRE,
/// which come in by em0.
const INCOMING: [Held; 57] = [
    ("ip from any to any", "++++++++"),
    ("all from any to any", "++++++++"),
    ("tcp from any to any", "+++---+-"),
    ("17 from any to any", "---+-+--"),
    ("icmp from any to any", "----+---"),
    ("47 from any to any", "-------+"),
    ("ip from me to any", "+--++++-"),
    ("ip from not me to any", "-++----+"),
    ("ip from any to me", "-+-----+"),
    ("ip from 10.1.0.0/16 to any", "--+-----"),
    ("ip from not 10.0.0.0/8 to any", "-+------"),
    ("ip from 192.0.2.1,10.2.0.0/15 to any", "-+-----+"),
    ("ip from not 192.0.2.1,10.2.0.0/15 to any", "+-+++++-"),
    ("ip from not any to any", "--------"),
    ("ip from table(nets) to any", "+-++++++"),
    ("ip from table(nets,2) to any", "--+-----"),
    ("ip from table(nets,1) to any", "+--+++++"),
    ("ip from table(none) to any", "--------"),
    ("ip from any to table(nets)", "-++----+"),
    ("ip from any to not table(nets,1)", "+--++++-"),
    ("ip from any to any 80", "+-------"),
    ("ip from any to any 53-80", "+--+----"),
    ("ip from any to any not 53-80", "-++-++++"),
    ("ip from any 80,5-6 to any", "-+-+----"),
    ("ip from any not 80,5-6 to any", "+-+-++++"),
    ("udp from any to any 53", "---+----"),
    ("ip from 10.0.0.0/8 1025 to 192.0.2.0/24 80", "+-------"),
    ("ip from any to any in", "++++++++"),
    ("ip from any to any out", "--------"),
    ("ip from any to any not out", "++++++++"),
    ("ip from any to any recv em0", "++++++++"),
    ("ip from any to any recv em1", "--------"),
    ("ip from any to any recv em*", "++++++++"),
    ("ip from any to any recv em0*", "++++++++"),
    ("ip from any to any recv em01*", "--------"),
    ("ip from any to any recv any", "++++++++"),
    ("ip from any to any xmit any", "--------"),
    ("ip from any to any not xmit any", "++++++++"),
    ("ip from any to any via em0", "++++++++"),
    ("ip from any to any not via e*", "--------"),
    ("ip from any to any established", "-++-----"),
    ("ip from any to any setup", "+-------"),
    ("ip from any to any not setup", "-+++++++"),
    ("ip from any to any frag", "-----+--"),
    ("ip from any to any tcpflags syn", "++------"),
    ("ip from any to any tcpflags syn,!ack", "+-------"),
    ("ip from any to any tcpflags !syn", "--+-----"),
    ("ip from any to any not tcpflags syn,ack", "+-++++++"),
    ("ip from any to any icmptypes 3,8", "----+---"),
    ("ip from any to any not icmptypes 0", "++++++++"),
    ("ip from any to any ipoptions rr,!ts", "-------+"),
    ("ip from any to any ipoptions !rr", "+++++++-"),
    ("ip from any to any lookup src-ip nets", "+-++++++"),
    ("ip from any to any lookup dst-ip nets", "-++----+"),
    ("ip from any to any lookup src-port ports", "-+------"),
    ("ip from any to any lookup dst-port ports", "+-------"),
    (
        "ip from any to any in not setup not frag recv em0",
        "-++++-++",
    ),
];

/// For the same packets, which go out by em0.
const OUTGOING: [Held; 6] = [
    ("ip from any to any out", "++++++++"),
    ("ip from any to any in", "--------"),
    ("ip from any to any xmit em0", "++++++++"),
    ("ip from any to any recv any", "--------"),
    ("ip from any to any via em0", "++++++++"),
    ("tcp from any to any out setup", "+-------"),
];

/// How a report begins where rule 100 allows the packets with a `+` and rule 65535 denies the others.
fn text_of(alloc: Global, holds: &str) -> Result<Vec<u8>, Fail> {
    let mut text = Vec::new(alloc);
    for (place, sign) in holds.bytes().enumerate() {
        let record = place.saturating_add(1);
        let line = if sign == b'+' {
            format!(in alloc; "1.{record} allow 00100 at 1\n")?
        } else {
            format!(in alloc; "1.{record} deny 65535 at 1\n")?
        };
        text.extend_from_slice(line.as_bytes())?;
    }
    let end = format!(in alloc; "end 1 records {}\n", holds.len())?;
    text.extend_from_slice(end.as_bytes())?;
    Ok(text)
}

/// A capture of the eight packets.
fn packets(alloc: Global) -> Result<Vec<u8>, Fail> {
    raw(
        alloc,
        &[
            SYN, SYN_ACK, RESET, QUERY, ECHO, FRAGMENT, SHORT_SYN, RECORDED,
        ],
    )
}

/// The script with the rule of that body.
fn script_of(alloc: Global, body: &str) -> Result<Vec<u8>, Fail> {
    let mut script = Vec::from_slice(alloc, BEFORE)?;
    script.extend_from_slice(body.as_bytes())?;
    Ok(script)
}

/// Runs the rule of that body over the packets of a capture, with this word for it.
fn run_body<R: Threads + Wait + Sync>(
    rt: &R,
    alloc: Global,
    word: &str,
    capture: &[u8],
    body: &str,
) -> Result<Seen, Fail> {
    let script = script_of(alloc, body)?;
    let mut library = library_of(alloc, &script, capture, &[], None)?;
    run_over(rt, alloc, &["serial", "s", word], &mut library, ROOM)
}

fn check_body<R: Threads + Wait + Sync + Abort>(
    rt: &R,
    alloc: Global,
    word: &str,
    capture: &[u8],
    (body, holds): Held,
) -> Result<(), Fail> {
    let seen = run_body(rt, alloc, word, capture, body)?;
    let begins = text_of(alloc, holds)?;
    assert!(rt; seen.text.starts_with(&begins), "{body}");
    assert_eq!(rt; seen.status, 0, "{body}");
    Ok(())
}

/// Runs each rule over the packets of a capture, with this word for it.
pub fn check<R: Threads + Wait + Sync + Abort>(
    rt: &R,
    alloc: Global,
    word: &str,
    capture: &[u8],
    rows: &[Held],
) -> Result<(), Fail> {
    for row in rows {
        check_body(rt, alloc, word, capture, *row)?;
    }
    Ok(())
}

#[test]
fn bodies_hold_of_incoming_packets(rt: HostRuntime) -> Result<(), Fail> {
    check(
        &rt,
        rt.alloc(),
        "in:em0:c",
        &packets(rt.alloc())?,
        &INCOMING,
    )
}

#[test]
fn bodies_hold_of_outgoing_packets(rt: HostRuntime) -> Result<(), Fail> {
    check(
        &rt,
        rt.alloc(),
        "out:em0:c",
        &packets(rt.alloc())?,
        &OUTGOING,
    )
}

/// Worked rows of tables, flags and lookups.
const WORKED: [Row; 3] = [
    Row {
        name: "longest_prefix_decides",
        words: SERIAL,
        script: "table nets add 10.0.0.0/8 1\ntable nets add 10.1.0.0/16 2\nadd 100 allow ip from table(nets,2) to any\nadd 200 deny ip from table(nets,1) to any\n",
        captures: &[&[
            (100, Packet::Tcp(([10, 1, 2, 3], 1025), (B, 80), 2)),
            (100, Packet::Tcp(([10, 2, 2, 3], 1025), (B, 80), 2)),
            (100, Packet::Tcp(([11, 0, 0, 1], 1025), (B, 80), 2)),
        ]],
        status: 0,
        text: "1.1 allow 00100 at 1\n1.2 deny 00200 at 1\n1.3 deny 65535 at 1\nend 1 records 3\neditions 1\nrules 3\n00100 1 40 allow ip from table(nets,2) to any\n00200 1 40 deny ip from table(nets,1) to any\n65535 1 40 set 31 deny ip from any to any\nclock 0\nstates 0\n",
    },
    Row {
        name: "established_needs_ack_or_rst",
        words: SERIAL,
        script: "add 100 allow tcp from any to any established\n",
        captures: &[&[(100, T), (100, Packet::Tcp((A, 1025), (B, 80), 18))]],
        status: 0,
        text: "1.1 deny 65535 at 1\n1.2 allow 00100 at 1\nend 1 records 2\neditions 1\nrules 2\n00100 1 40 allow tcp from any to any established\n65535 1 40 set 31 deny ip from any to any\nclock 0\nstates 0\n",
    },
    Row {
        name: "lookup_of_a_port",
        words: SERIAL,
        script: "table ports create type number\ntable ports add 80 1\nadd 100 allow tcp from any to any lookup dst-port ports\n",
        captures: &[&[(100, T)]],
        status: 0,
        text: "1.1 allow 00100 at 1\nend 1 records 1\neditions 1\nrules 2\n00100 1 40 allow tcp from any to any lookup dst-port ports\n65535 0 0 set 31 deny ip from any to any\nclock 0\nstates 0\n",
    },
];

#[test]
fn tables_flags_and_lookups(rt: HostRuntime) -> Result<(), Fail> {
    check_rows(&rt, rt.alloc(), &WORKED)
}
