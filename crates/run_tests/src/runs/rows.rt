use super::captures::{COOKED, ETHERNET, ETHERNET_HEADER, push_record, raw, syns};
use super::{MODES, ROOM, SERIAL, assert_seen, library_of, run_over};
use std::alloc::Global;
use std::process::Abort;
use std::sync::Wait;
use std::test::Fail;
use std::thread::Threads;
use test_frames::SYN;

/// The piece lists that each row is run with.
const PIECE_LISTS: [&[usize]; 3] = [&[], &[1], &[7, 16]];

/// A worked row of one capture of incoming packets.
#[derive(Clone, Copy)]
struct Row {
    name: &'static str,
    script: &'static str,
    capture: Made,
    status: u8,
    text: &'static str,
}

/// What a capture is made of.
#[derive(Clone, Copy)]
enum Made {
    /// The first bytes, that many, of an Ethernet capture of two SYNs. One ends behind 94.
    Front(usize),
    /// A raw record of 262,144 zero bytes, and the header of one that is longer by a byte.
    TooLong,
    /// An ARP frame, and a SYN behind a tag of IEEE 802.1Q.
    ArpAndTagged,
    /// A SYN in a nanosecond capture of Linux cooked frames, big-endian.
    Cooked,
    /// Raw records that can't be read as IPv4, and a SYN of total length 0.
    Unreadable,
}

/// The first bytes, that many, of a capture of two SYNs.
fn front(alloc: Global, count: usize) -> Result<Vec<u8>, Fail> {
    let mut capture = syns(alloc, 2)?;
    capture.truncate(count);
    Ok(capture)
}

fn too_long(alloc: Global) -> Result<Vec<u8>, Fail> {
    let zeros = vec![in alloc; 0u8; 262_144]?;
    let mut capture = raw(alloc, &[&zeros])?;
    capture.extend_from_slice(&[101, 0, 0, 0, 0, 0, 0, 0, 1, 0, 4, 0, 1, 0, 4, 0])?;
    Ok(capture)
}

pub fn arp_and_tagged(alloc: Global) -> Result<Vec<u8>, Fail> {
    let (ends, kind) = ETHERNET.split_at(12);
    let mut capture = Vec::from_slice(alloc, &ETHERNET_HEADER)?;
    push_record(&mut capture, 100, &[ends, &[8, 6], SYN])?;
    push_record(&mut capture, 100, &[ends, &[0x81, 0, 0, 5], kind, SYN])?;
    Ok(capture)
}

fn cooked(alloc: Global) -> Result<Vec<u8>, Fail> {
    let mut capture = Vec::from_slice(alloc, &COOKED)?;
    capture.extend_from_slice(SYN)?;
    Ok(capture)
}

/// The SYN with a total length of 0.
fn syn_without_total(alloc: Global) -> Result<Vec<u8>, Fail> {
    let mut syn = Vec::from_slice(alloc, SYN)?;
    let Some(total) = syn.get_mut(3) else {
        return Err(Fail::from("a SYN without a total length"));
    };
    *total = 0;
    Ok(syn)
}

fn unreadable(alloc: Global) -> Result<Vec<u8>, Fail> {
    let mut starts = [[0u8; 20]; 5];
    starts[0][0] = 0x55;
    starts[1][0] = 0x44;
    starts[2][0] = 0x46;
    starts[3][0] = 0x45;
    starts[3][3] = 0x13;
    starts[4][0] = 0x60;
    let [version, words, short, total, six] = &starts;
    let unsized_syn = syn_without_total(alloc)?;
    let packets: [&[u8]; 7] = [&[], version, words, short, total, six, &unsized_syn];
    raw(alloc, &packets)
}

fn bytes_of(alloc: Global, made: Made) -> Result<Vec<u8>, Fail> {
    match made {
        Made::Front(count) => front(alloc, count),
        Made::TooLong => too_long(alloc),
        Made::ArpAndTagged => arp_and_tagged(alloc),
        Made::Cooked => cooked(alloc),
        Made::Unreadable => unreadable(alloc),
    }
}

/// Runs the row in both modes over its capture, which comes in these pieces, and compares the status and the text.
fn check_in_pieces<R: Threads + Wait + Sync + Abort>(
    rt: &R,
    alloc: Global,
    row: &Row,
    capture: &[u8],
    pieces: &[usize],
) -> Result<(), Fail> {
    for words in MODES {
        let mut library = library_of(alloc, row.script.as_bytes(), capture, pieces, None)?;
        let seen = run_over(rt, alloc, words, &mut library, ROOM)?;
        assert_seen(rt, &seen, row.name, row.status, row.text.as_bytes());
        assert_eq!(rt; seen.sources, 2);
    }
    Ok(())
}

/// Runs the row with each list of pieces.
fn check<R: Threads + Wait + Sync + Abort>(rt: &R, alloc: Global, row: &Row) -> Result<(), Fail> {
    let capture = bytes_of(alloc, row.capture)?;
    for pieces in PIECE_LISTS {
        check_in_pieces(rt, alloc, row, &capture, pieces)?;
    }
    Ok(())
}

const ROWS: [Row; 9] = [
    Row {
        name: "empty_script_denies_one_syn",
        script: "",
        capture: Made::Front(94),
        status: 0,
        text: "1.1 deny 65535 at 1\nend 1 records 1\neditions 1\nrules 1\n65535 1 40 set 31 deny ip from any to any\nclock 0\nstates 0\n",
    },
    Row {
        name: "capture_of_no_records",
        script: "",
        capture: Made::Front(24),
        status: 0,
        text: "end 1 records 0\neditions 1\nrules 1\n65535 0 0 set 31 deny ip from any to any\nclock 0\nstates 0\n",
    },
    Row {
        name: "last_record_cut_short",
        script: "",
        capture: Made::Front(163),
        status: 3,
        text: "1.1 deny 65535 at 1\nfault 1 record 2 ShortRecord\neditions 1\nrules 1\n65535 1 40 set 31 deny ip from any to any\nclock 0\nstates 0\n",
    },
    Row {
        name: "header_and_half_a_record_header",
        script: "",
        capture: Made::Front(30),
        status: 3,
        text: "fault 1 record 1 ShortRecordHeader\neditions 1\nrules 1\n65535 0 0 set 31 deny ip from any to any\nclock 0\nstates 0\n",
    },
    Row {
        name: "rules_stand_in_number_order",
        script: "add 200 deny ip from any to any\nadd 100 allow tcp from 10.0.0.0/8 to any\n",
        capture: Made::Front(94),
        status: 0,
        text: "1.1 allow 00100 at 1\nend 1 records 1\neditions 1\nrules 3\n00100 1 40 allow tcp from 10.0.0.0/8 to any\n00200 0 0 deny ip from any to any\n65535 0 0 set 31 deny ip from any to any\nclock 0\nstates 0\n",
    },
    Row {
        name: "record_too_long",
        script: "",
        capture: Made::TooLong,
        status: 3,
        text: "1.1 malformed 3\nfault 1 record 2 RecordTooLong\neditions 1\nrules 1\n65535 0 0 set 31 deny ip from any to any\nclock 0\nstates 0\n",
    },
    Row {
        name: "arp_is_other_and_vlan_is_read",
        script: "",
        capture: Made::ArpAndTagged,
        status: 0,
        text: "1.1 other\n1.2 deny 65535 at 1\nend 1 records 2\neditions 1\nrules 1\n65535 1 40 set 31 deny ip from any to any\nclock 0\nstates 0\n",
    },
    Row {
        name: "cooked_capture_is_read",
        script: "",
        capture: Made::Cooked,
        status: 0,
        text: "1.1 deny 65535 at 1\nend 1 records 1\neditions 1\nrules 1\n65535 1 40 set 31 deny ip from any to any\nclock 0\nstates 0\n",
    },
    Row {
        name: "cooked_big_endian_nanoseconds",
        script: "add allow tcp from any to any 80\n",
        capture: Made::Cooked,
        status: 0,
        text: "1.1 allow 00100 at 1\nend 1 records 1\neditions 1\nrules 2\n00100 1 40 allow tcp from any to any 80\n65535 0 0 set 31 deny ip from any to any\nclock 0\nstates 0\n",
    },
];

#[test]
fn captures_are_read(rt: HostRuntime) -> Result<(), Fail> {
    for row in ROWS {
        check(&rt, rt.alloc(), &row)?;
    }
    Ok(())
}

const MALFORMED: Row = Row {
    name: "malformed_kinds",
    script: "",
    capture: Made::Unreadable,
    status: 0,
    text: "1.1 malformed 2\n1.2 malformed 3\n1.3 malformed 4\n1.4 malformed 2\n1.5 malformed 5\n1.6 malformed 2\n1.7 deny 65535 at 1\nend 1 records 7\neditions 1\nrules 1\n65535 1 40 set 31 deny ip from any to any\nclock 0\nstates 0\n",
};

#[test]
fn malformed_kinds(rt: HostRuntime) -> Result<(), Fail> {
    check(&rt, rt.alloc(), &MALFORMED)
}

/// Runs an empty script over two SYNs, whose source fails behind the first.
fn check_failing_source<R: Threads + Wait + Sync + Abort>(
    rt: &R,
    alloc: Global,
    pieces: &[usize],
) -> Result<(), Fail> {
    let mut library = library_of(alloc, b"", &syns(alloc, 2)?, pieces, Some(94))?;
    let seen = run_over(rt, alloc, SERIAL, &mut library, ROOM)?;
    let text =
        b"1.1 deny 65535 at 1\nfault 1 record 2 ReadFault\neditions 1\nrules 1\n65535 1 40 set 31 deny ip from any to any\nclock 0\nstates 0\n";
    assert_seen(rt, &seen, "read_fault_between_records", 4, text);
    Ok(())
}

#[test]
fn read_fault_between_records(rt: HostRuntime) -> Result<(), Fail> {
    for pieces in PIECE_LISTS {
        check_failing_source(&rt, rt.alloc(), pieces)?;
    }
    Ok(())
}

#[test]
fn sink_of_ten_bytes(rt: HostRuntime) -> Result<(), Fail> {
    let alloc = rt.alloc();
    let mut library = library_of(alloc, b"", &syns(alloc, 1)?, &[], None)?;
    let seen = run_over(&rt, alloc, SERIAL, &mut library, 10)?;
    assert_seen(&rt, &seen, "sink_of_ten_bytes", 5, b"1.1 deny 6");
    assert_eq!(rt; seen.records, 1);
    Ok(())
}
