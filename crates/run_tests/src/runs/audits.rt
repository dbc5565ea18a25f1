use super::captures::capture_of;
use super::states::CONNECTION;
use super::{ROOM, Seen, add, assert_seen, seen_of, texts};
use fw_base::FreeGate;
use memory_files::{MemoryLibrary, MemorySink};
use run_driver::run;
use std::alloc::Global;
use std::process::Abort;
use std::sync::Wait;
use std::test::Fail;
use std::thread::Threads;

const SCRIPT: &str = "add 100 check-state\nadd 200 allow tcp from any to any setup keep-state\n";

/// The report of a connection with its journal, but for a word of its line 18 and a word of its line 22.
const REPORT: [&str; 3] = [
    "1.1 allow 00200 at 1\n1.2 allow 00200 at 1\n1.3 allow 00200 at 1\n1.4 allow 00200 at 1\n1.5 deny 65535 at 1\nend 1 records 5\neditions 1\nrules 3\n00100 0 0 check-state\n00200 4 160 allow tcp from any to any setup keep-state\n65535 1 40 set 31 deny ip from any to any\nclock 104\nstates 0\njournal 2 7\npublish 1\nask 1.1 100 lookup :default tcp 10.0.0.1 1025 192.0.2.1 80 S notfound\nask 1.1 100 install 2 keep :default tcp 10.0.0.1 1025 192.0.2.1 80 S created\nask 1.2 101 lookup :default tcp 192.0.2.1 80 10.0.0.1 1025 S found 2 ",
    "\nask 1.3 102 lookup :default tcp 10.0.0.1 1025 192.0.2.1 80 F found 2 forward\nask 1.4 103 lookup :default tcp 192.0.2.1 80 10.0.0.1 1025 F found 2 reverse\nask 1.5 104 lookup :default tcp 10.0.0.1 1025 192.0.2.1 80 - notfound\nlane 1 refused 0 tracker ",
    "\n",
];

/// A report: the words that it has, the words of its audit, what is answered, and how many sources are handed back.
struct Audited {
    name: &'static str,
    report: [&'static str; 2],
    words: &'static [&'static str],
    status: u8,
    text: &'static str,
    sources: usize,
}

const WORDS: &[&str] = &["audit", "r", "s", "in:em0:c"];

const AUDITS: [Audited; 7] = [
    Audited {
        name: "audit_accepts",
        report: ["reverse", "10"],
        words: WORDS,
        status: 0,
        text: "audit yes\n",
        sources: 3,
    },
    Audited {
        name: "audit_finds_wrong_reply",
        report: ["forward", "10"],
        words: WORDS,
        status: 7,
        text: "audit no line 18\n",
        sources: 3,
    },
    Audited {
        name: "audit_finds_wrong_tracker",
        report: ["reverse", "12"],
        words: WORDS,
        status: 7,
        text: "audit no line 22\n",
        sources: 3,
    },
    Audited {
        name: "a capture of another direction",
        report: ["reverse", "10"],
        words: &["audit", "r", "s", "out:em0:c"],
        status: 0,
        text: "audit yes\n",
        sources: 3,
    },
    Audited {
        name: "a report that isn't there",
        report: ["reverse", "10"],
        words: &["audit", "q", "s", "in:em0:c"],
        status: 4,
        text: "cannot read q\n",
        sources: 0,
    },
    Audited {
        name: "a capture that isn't there",
        report: ["reverse", "10"],
        words: &["audit", "r", "s", "in:em0:c", "in:em0:d"],
        status: 4,
        text: "cannot read d\n",
        sources: 3,
    },
    Audited {
        name: "a report for a script",
        report: ["reverse", "10"],
        words: &["audit", "s", "r", "in:em0:c"],
        status: 2,
        text: "script line 1 column 1 UnknownWord\n",
        sources: 3,
    },
];

/// Runs the words of any command over a library.
fn audit_over<R: Threads + Wait + Sync>(
    rt: &R,
    alloc: Global,
    words: &[&str],
    library: &mut MemoryLibrary,
) -> Result<Seen, Fail> {
    let mut out = MemorySink::new(alloc, ROOM)?;
    let words = texts(alloc, words)?;
    let outcome = run(rt, alloc, &words, library, &mut out, &FreeGate);
    seen_of(alloc, outcome, out.written())
}

fn check_audit<R: Threads + Wait + Sync + Abort>(
    rt: &R,
    alloc: Global,
    row: &Audited,
) -> Result<(), Fail> {
    let mut report = String::from_str(alloc, REPORT[0])?;
    report.push_str(row.report[0])?;
    report.push_str(REPORT[1])?;
    report.push_str(row.report[1])?;
    report.push_str(REPORT[2])?;
    let capture = capture_of(alloc, CONNECTION)?;
    let mut library = MemoryLibrary::new(alloc);
    add(alloc, &mut library, b"r", report.as_bytes(), &[], None)?;
    add(alloc, &mut library, b"s", SCRIPT.as_bytes(), &[], None)?;
    add(alloc, &mut library, b"c", &capture, &[], None)?;
    let seen = audit_over(rt, alloc, row.words, &mut library)?;
    assert_seen(rt, &seen, row.name, row.status, row.text.as_bytes());
    assert_eq!(rt; seen.sources, row.sources, "{}", row.name);
    Ok(())
}

/// Reports that are audited: the report of a connection, that with a wrong word, and names that can't be read.
#[test]
fn audits(rt: HostRuntime) -> Result<(), Fail> {
    for row in &AUDITS {
        check_audit(&rt, rt.alloc(), row)?;
    }
    Ok(())
}
