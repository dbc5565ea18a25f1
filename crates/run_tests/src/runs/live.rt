use super::captures::{Packet, syns};
use super::gates::{Between, Call, Log, Meeting};
use super::rows::arp_and_tagged;
use super::{
    A, B, ROOM, Row, T, Timed, U, add, add_capture, assert_seen, check, library_of_row, run_beside,
};
use eval_engine::{DocketEntry, Verdict};
use fw_base::FreeGate;
use memory_files::{MemoryLibrary, MemorySink};
use replay_driver::run;
use std::alloc::Global;
use std::process::Abort;
use std::sync::Wait;
use std::test::Fail;
use std::thread::Threads;

/// How many times a line stands in a text.
fn count_of(text: &[u8], line: &[u8]) -> usize {
    let mut count = 0usize;
    for found in text.split(|byte| *byte == b'\n') {
        if found == line {
            count = count.saturating_add(1);
        }
    }
    count
}

/// Compares the front of a text, and that each of these lines stands once behind it, and none other.
fn assert_lines(rt: &impl Abort, text: &[u8], front: &str, lines: &[&str], name: &str) {
    let front = front.as_bytes();
    assert!(rt; text.starts_with(front), "{name}");
    let mut length = front.len();
    for line in lines {
        assert_eq!(rt; count_of(text, line.as_bytes()), 1, "{name}: {line}");
        length = length.saturating_add(line.len()).saturating_add(1);
    }
    assert_eq!(rt; text.len(), length, "{name}");
}

/// The other one of two captures of one UDP packet each.
const OTHER: Packet = Packet::Udp((A, 7), (B, 8));

const BOTH: &[&[Timed]] = &[&[(100, U)], &[(100, OTHER)]];

const TWO_WORDS: &[&str] = &["live", "--journal", "s", "in:em0:c", "in:em0:d"];

const TWO_WORKERS: Row = Row {
    name: "two_workers_inside_at_once",
    words: TWO_WORDS,
    script: "add 100 allow udp from any to any keep-state\n",
    captures: BOTH,
    status: 0,
    text: "1.1 allow 00100 at 1\nend 1 records 1\n2.1 allow 00100 at 1\nend 2 records 1\neditions 1\nrules 2\n00100 2 56 allow udp from any to any keep-state\n65535 0 0 set 31 deny ip from any to any\nclock 100\nstates 2\n",
};

#[test]
fn two_workers_inside_at_once(rt: HostRuntime) -> Result<(), Fail> {
    let alloc = rt.alloc();
    let row = TWO_WORKERS;
    let gate = Meeting::new(2, 0);
    let mut library = library_of_row(alloc, &row)?;
    let seen = run_beside(&rt, alloc, row.words, &mut library, &gate)?;
    assert!(&rt; gate.was_met(), "{}", row.name);
    assert_eq!(&rt; seen.status, row.status);
    assert_lines(
        &rt,
        &seen.text,
        row.text,
        &[
            "00100 udp 10.0.0.1 5 192.0.2.1 6 expires 110",
            "00100 udp 10.0.0.1 7 192.0.2.1 8 expires 110",
            "journal 2 5",
            "publish 1",
            "ask 1.1 100 lookup :default udp 10.0.0.1 5 192.0.2.1 6 - notfound",
            "ask 1.1 100 install 1 keep :default udp 10.0.0.1 5 192.0.2.1 6 - created",
            "ask 2.1 100 lookup :default udp 10.0.0.1 7 192.0.2.1 8 - notfound",
            "ask 2.1 100 install 1 keep :default udp 10.0.0.1 7 192.0.2.1 8 - created",
            "lane 1 refused 0 tracker 2",
            "lane 2 refused 0 tracker 2",
        ],
        row.name,
    );
    Ok(())
}

const OPERATOR_WAITS: Row = Row {
    name: "operator_waits_for_two_readers",
    words: TWO_WORDS,
    script: "add 100 allow udp from any to any keep-state\nlive\ndelete 100\n",
    captures: BOTH,
    status: 0,
    text: "1.1 allow 00100 at 1\nend 1 records 1\n2.1 allow 00100 at 1\nend 2 records 1\neditions 2\nrules 1\n65535 0 0 set 31 deny ip from any to any\nclock 100\nstates 0\n",
};

#[test]
fn operator_waits_for_two_readers(rt: HostRuntime) -> Result<(), Fail> {
    let alloc = rt.alloc();
    let row = OPERATOR_WAITS;
    let gate = Meeting::new(2, 1);
    let mut library = library_of_row(alloc, &row)?;
    let seen = run_beside(&rt, alloc, row.words, &mut library, &gate)?;
    assert!(&rt; gate.was_met(), "{}", row.name);
    assert_eq!(&rt; seen.status, row.status);
    assert_lines(
        &rt,
        &seen.text,
        row.text,
        &[
            "journal 2 6",
            "publish 1",
            "ask 1.1 100 lookup :default udp 10.0.0.1 5 192.0.2.1 6 - notfound",
            "ask 1.1 100 install 1 keep :default udp 10.0.0.1 5 192.0.2.1 6 - created",
            "ask 2.1 100 lookup :default udp 10.0.0.1 7 192.0.2.1 8 - notfound",
            "ask 2.1 100 install 1 keep :default udp 10.0.0.1 7 192.0.2.1 8 - created",
            "publish 2",
            "lane 1 refused 0 tracker 2",
            "lane 2 refused 0 tracker 2",
        ],
        row.name,
    );
    assert!(&rt;
        seen.text.ends_with(b"publish 2\nlane 1 refused 0 tracker 2\nlane 2 refused 0 tracker 2\n")
    );
    Ok(())
}

const BETWEEN: Row = Row {
    name: "commit_between_two_packets",
    words: &["live", "s", "in:em0:c"],
    script: "add 100 allow udp from any to any\nlive\ndelete 100\nadd 100 allow udp from any to any\n",
    captures: &[&[(100, U), (101, U)]],
    status: 0,
    text: "1.1 allow 00100 at 1\n1.2 deny 65535 at 2\nend 1 records 2\neditions 3\nrules 2\n00100 0 0 allow udp from any to any\n65535 1 28 set 31 deny ip from any to any\nclock 0\nstates 0\n",
};

#[test]
fn commit_between_two_packets(rt: HostRuntime) -> Result<(), Fail> {
    let alloc = rt.alloc();
    let row = BETWEEN;
    let gate = Between::new();
    let mut library = library_of_row(alloc, &row)?;
    let seen = run_beside(&rt, alloc, row.words, &mut library, &gate)?;
    assert!(&rt; !gate.was_late(), "{}", row.name);
    assert_seen(&rt, &seen, row.name, row.status, row.text.as_bytes());
    Ok(())
}

/// A library with the script of the row whose operator waits, and eight captures of one packet each.
fn library_of_eight(alloc: Global) -> Result<MemoryLibrary, Fail> {
    let mut library = MemoryLibrary::new(alloc);
    let script = OPERATOR_WAITS.script.as_bytes();
    add(alloc, &mut library, b"s", script, &[], None)?;
    for place in 1..=8u16 {
        add_capture(
            alloc,
            &mut library,
            0,
            &[(100, Packet::Udp((A, place), (B, 6)))],
        )?;
    }
    Ok(library)
}

#[test]
fn eight_workers_inside_at_once(rt: HostRuntime) -> Result<(), Fail> {
    let alloc = rt.alloc();
    let words = [
        "live",
        "--journal",
        "s",
        "in:e:c",
        "in:e:c",
        "in:e:c",
        "in:e:c",
        "in:e:c",
        "in:e:c",
        "in:e:c",
        "in:e:c",
    ];
    let gate = Meeting::new(8, 1);
    let mut library = library_of_eight(alloc)?;
    let seen = run_beside(&rt, alloc, &words, &mut library, &gate)?;
    assert!(&rt; gate.was_met(), "eight_workers_inside_at_once");
    assert_eq!(&rt; seen.status, 0);
    let front =
        b"1.1 allow 00100 at 1\nend 1 records 1\n2.1 allow 00100 at 1\nend 2 records 1\n3.1 allow 00100 at 1\nend 3 records 1\n4.1 allow 00100 at 1\nend 4 records 1\n5.1 allow 00100 at 1\nend 5 records 1\n6.1 allow 00100 at 1\nend 6 records 1\n7.1 allow 00100 at 1\nend 7 records 1\n8.1 allow 00100 at 1\nend 8 records 1\neditions 2\nrules 1\n65535 0 0 set 31 deny ip from any to any\nclock 100\nstates 0\njournal 2 18\npublish 1\n";
    assert!(&rt;
        seen.text.starts_with(front),
        "eight_workers_inside_at_once"
    );
    Ok(())
}

/// A script that swaps two sets so often, behind the rules of both.
fn storm_of(alloc: Global, swaps: usize) -> Result<Vec<u8>, Fail> {
    let mut script = Vec::from_slice(
        alloc,
        b"set disable 2\nadd 100 set 1 allow tcp from any to any\nadd 100 set 2 deny tcp from any to any\nlive\n",
    )?;
    for _swap in 0..swaps {
        script.extend_from_slice(b"set swap 1 2\n")?;
    }
    Ok(script)
}

/// The edition of an entry that was judged as its parity says, and behind no later edition.
fn swapped(entry: &DocketEntry, latest: u64) -> Option<u64> {
    match entry {
        DocketEntry::Judged {
            edition,
            verdict,
            ..
        } => {
            let allowed = *verdict == Verdict::Allow;
            if (edition % 2 == 1) == allowed && *edition >= latest {
                Some(*edition)
            } else {
                None
            }
        }
        DocketEntry::Other
        | DocketEntry::Malformed(_)
        | DocketEntry::Limited { .. }
        | DocketEntry::Full { .. } => None,
    }
}

/// Whether all entries were judged so, each behind no later edition.
fn all_swapped(entries: &[DocketEntry]) -> bool {
    let mut latest = 1;
    for entry in entries {
        match swapped(entry, latest) {
            Some(edition) => latest = edition,
            None => return false,
        }
    }
    true
}

#[test]
fn storm_of_set_swaps(rt: HostRuntime) -> Result<(), Fail> {
    let alloc = rt.alloc();
    let mut library = MemoryLibrary::new(alloc);
    add(alloc, &mut library, b"s", &storm_of(alloc, 200)?, &[], None)?;
    for _capture in 0..2 {
        add(alloc, &mut library, b"c", &syns(alloc, 50)?, &[], None)?;
    }
    let mut out = MemorySink::new(alloc, ROOM)?;
    let words = super::texts(alloc, &["live", "s", "in:em0:c", "in:em0:c"])?;
    let outcome = run(&rt, alloc, &words, &mut library, &mut out, &FreeGate);
    assert_eq!(&rt; outcome.status, 0);
    assert_eq!(&rt; count_of(out.written(), b"editions 201"), 1);
    assert!(&rt; outcome.kept.is_some());
    if let Some(kept) = &outcome.kept {
        assert_eq!(&rt; kept.dockets().len(), 2);
        for docket in kept.dockets() {
            assert_eq!(&rt; docket.entries().len(), 50);
            assert!(&rt; all_swapped(docket.entries()), "storm_of_set_swaps");
        }
    }
    Ok(())
}

/// What a gate is told: each record of each capture in order, those that are judged once more, each command behind
/// `live`, also one that is refused, and no listing.
#[test]
fn gate_is_told(rt: HostRuntime) -> Result<(), Fail> {
    let alloc = rt.alloc();
    let script = b"add 100 allow ip from any to any\nlive\nlist\ndelete 7\ndelete 100\n";
    let mut library = MemoryLibrary::new(alloc);
    add(alloc, &mut library, b"s", script, &[], None)?;
    add(
        alloc,
        &mut library,
        b"c",
        &arp_and_tagged(alloc)?,
        &[],
        None,
    )?;
    add_capture(alloc, &mut library, 1, &[(100, T), (101, T)])?;
    let gate = Log::new(alloc)?;
    let words = ["live", "s", "in:em0:c", "in:em0:d"];
    let seen = run_beside(&rt, alloc, &words, &mut library, &gate)?;
    assert_eq!(&rt; seen.status, 2);
    assert_eq!(&rt; count_of(&seen.text, b"refused line 4 NoSuchRule"), 1);
    let first = [Call::Before(1, 1), Call::Before(1, 2), Call::Inside(1, 2)];
    assert!(&rt; gate.has_calls(Some(1), &first), "the calls of lane 1");
    let second = [
        Call::Before(2, 1),
        Call::Inside(2, 1),
        Call::Before(2, 2),
        Call::Inside(2, 2),
    ];
    assert!(&rt; gate.has_calls(Some(2), &second), "the calls of lane 2");
    assert!(&rt;
        gate.has_calls(None, &[Call::Operator(4), Call::Operator(5)]),
        "the operator's calls"
    );
    Ok(())
}

const ROWS: [Row; 2] = [
    Row {
        name: "pace_in_live_script",
        words: &["live", "s", "in:em0:c"],
        script: "live\nafter 1\n",
        captures: &[&[(100, T)]],
        status: 2,
        text: "script line 2 column 1 PaceInLive\n",
    },
    Row {
        name: "two captures that ask nothing",
        words: &["live", "s", "in:em0:c", "in:em0:d"],
        script: "add 100 allow ip from any to any\n",
        captures: &[&[(100, T), (101, T)], &[(100, T)]],
        status: 0,
        text: "1.1 allow 00100 at 1\n1.2 allow 00100 at 1\nend 1 records 2\n2.1 allow 00100 at 1\nend 2 records 1\neditions 1\nrules 2\n00100 3 120 allow ip from any to any\n65535 0 0 set 31 deny ip from any to any\nclock 0\nstates 0\n",
    },
];

#[test]
fn live_rows(rt: HostRuntime) -> Result<(), Fail> {
    check(&rt, rt.alloc(), &ROWS)
}

/// A library with an empty script, a capture whose source fails, one that is no capture, and a whole one.
fn library_of_faults(alloc: Global) -> Result<MemoryLibrary, Fail> {
    let mut library = MemoryLibrary::new(alloc);
    add(alloc, &mut library, b"s", b"", &[], None)?;
    add(alloc, &mut library, b"c", &syns(alloc, 2)?, &[], Some(94))?;
    add(
        alloc,
        &mut library,
        b"c",
        b"no capture, however long it may be",
        &[],
        None,
    )?;
    add(alloc, &mut library, b"c", &syns(alloc, 2)?, &[], None).map(|()| library)
}

/// Each capture is read to its end or its fault, whatever the others meet.
#[test]
fn faults_stop_no_other_capture(rt: HostRuntime) -> Result<(), Fail> {
    let alloc = rt.alloc();
    let mut library = library_of_faults(alloc)?;
    let words = ["live", "s", "in:e:c", "in:e:c", "in:e:c"];
    let seen = run_beside(&rt, alloc, &words, &mut library, &FreeGate)?;
    let text =
        b"1.1 deny 65535 at 1\nfault 1 record 2 ReadFault\nfault 2 record 0 BadMagic\n3.1 deny 65535 at 1\n3.2 deny 65535 at 1\nend 3 records 2\neditions 1\nrules 1\n65535 3 120 set 31 deny ip from any to any\nclock 0\nstates 0\n";
    assert_seen(&rt, &seen, "faults_stop_no_other_capture", 4, text);
    Ok(())
}
