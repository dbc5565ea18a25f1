ghost use Rattle.std.specs.Prelude.{◌<◌, length};

use books::book_of;
use dockets::{Entered, Records, records_of};
use editions::{Change, editions_of};
use ends::{Told, ends_of};
use eval_engine::{Cause, Verdict};
use fw_report::{write_report, write_summary};
use generation_store::Edition;
use memory_files::MemorySink;
use pcap_read::CaptureFault;
use report_texts::{CaptureEnd, Ends, Recorded};
use rule_edits::ApplyFault;
use state_journal::Book;
use std::alloc::Global;
use std::process::Abort;
use std::sync::Arc;
use std::test::Fail;

mod books;
mod dockets;
mod editions;
mod ends;

/// A report, and what it is of.
#[derive(Clone, Copy)]
struct Row<'a> {
    /// For each edition what changes the empty configuration.
    editions: &'a [&'a [Change]],
    captures: &'a [Captured<'a>],
    /// Whether the connection's asks stand in the journal.
    is_asked: bool,
    /// The lines of the script that are answered, and how.
    answers: &'a [(u32, Told)],
    hits: &'a [u64],
    text: &'a str,
}

/// What was entered for a capture's records, what was counted for them, and the capture's end.
#[derive(Clone, Copy)]
struct Captured<'a> {
    entries: &'a [Entered],
    counted: &'a [(u32, u32)],
    end: CaptureEnd,
}

/// Writes the report and then the summary.
fn write_both(
    row: &Row<'_>,
    editions: &[Arc<Edition>],
    book: &Book,
    records: &Records,
    ends: &Ends,
    out: &mut MemorySink,
) -> Result<(), &'static str>
    requires { 0 < length editions.now }
{
    let Records { dockets, tallies } = records;
    let recorded = Recorded {
        editions,
        book,
        dockets,
        tallies,
        trackers: &[10],
        hits: row.hits,
    };
    write_report(&recorded, ends, row.is_asked, out).or(Err("not written"))?;
    write_summary(&recorded, out).or(Err("not written"))
}

/// Writes the report and then the summary, with the book that the row wants.
fn write_row(
    rt: &impl Abort,
    alloc: Global,
    row: &Row<'_>,
    editions: &[Arc<Edition>],
    records: &Records,
    out: &mut MemorySink,
) -> Result<(), Fail> {
    assert!(rt; !editions.is_empty());
    let ends = ends_of(alloc, row)?;
    let book = book_of(rt, alloc, editions, row.is_asked)?;
    Ok(write_both(row, editions, &book, records, &ends, out)?)
}

/// The report, and then the summary, compared with the row's text.
fn assert_reported(rt: &impl Abort, alloc: Global, row: &Row<'_>) -> Result<(), Fail> {
    let mut out = MemorySink::new(alloc, 4096)?;
    let records = records_of(rt, alloc, row.captures)?;
    let editions = editions_of(rt, alloc, row.editions)?;
    write_row(rt, alloc, row, &editions, &records, &mut out)?;
    assert_eq!(rt; out.written(), row.text.as_bytes());
    Ok(())
}

const EMPTY_SCRIPT: Row<'static> = Row {
    editions: &[&[]],
    captures: &[Captured {
        entries: &[Entered::Judged(Verdict::Deny, 65535, 1, Cause::Rule)],
        counted: &[(0, 40)],
        end: CaptureEnd::Read { records: 1 },
    }],
    is_asked: false,
    answers: &[],
    hits: &[],
    text: "1.1 deny 65535 at 1\nend 1 records 1\neditions 1\nrules 1\n\
        65535 1 40 set 31 deny ip from any to any\nclock 0\nstates 0\n\
        records 1\nallow 0\ndeny 1\neditions 1\nentries 1\nstates 0\n",
};

#[test]
fn empty_script_denies_one_syn(rt: HostRuntime) -> Result<(), Fail> {
    assert_reported(&rt, rt.alloc(), &EMPTY_SCRIPT)
}

const ALLOW: Entered = Entered::Judged(Verdict::Allow, 200, 1, Cause::Rule);

const DENY: Entered = Entered::Judged(Verdict::Deny, 65535, 1, Cause::Rule);

const CONNECTION: Row<'static> = Row {
    editions: &[&[Change::CheckState, Change::AllowSetup]],
    captures: &[Captured {
        entries: &[ALLOW, ALLOW, ALLOW, ALLOW, DENY],
        counted: &[(2, 40), (2, 40), (2, 40), (2, 40), (0, 40)],
        end: CaptureEnd::Read { records: 5 },
    }],
    is_asked: true,
    answers: &[],
    hits: &[],
    text: "1.1 allow 00200 at 1\n1.2 allow 00200 at 1\n1.3 allow 00200 at 1\n\
        1.4 allow 00200 at 1\n1.5 deny 65535 at 1\nend 1 records 5\neditions 1\nrules 3\n\
        00100 0 0 check-state\n00200 4 160 allow tcp from any to any setup keep-state\n\
        65535 1 40 set 31 deny ip from any to any\nclock 104\nstates 0\njournal 2 7\n\
        publish 1\n\
        ask 1.1 100 lookup :default tcp 10.0.0.1 1025 192.0.2.1 80 S notfound\n\
        ask 1.1 100 install 2 keep :default tcp 10.0.0.1 1025 192.0.2.1 80 S created\n\
        ask 1.2 101 lookup :default tcp 192.0.2.1 80 10.0.0.1 1025 S found 2 reverse\n\
        ask 1.3 102 lookup :default tcp 10.0.0.1 1025 192.0.2.1 80 F found 2 forward\n\
        ask 1.4 103 lookup :default tcp 192.0.2.1 80 10.0.0.1 1025 F found 2 reverse\n\
        ask 1.5 104 lookup :default tcp 10.0.0.1 1025 192.0.2.1 80 - notfound\n\
        lane 1 refused 0 tracker 10\n\
        records 5\nallow 4\ndeny 1\neditions 1\nentries 7\nstates 0\n",
};

#[test]
fn tcp_state_lives_and_dies(rt: HostRuntime) -> Result<(), Fail> {
    assert_reported(&rt, rt.alloc(), &CONNECTION)
}

const EACH_KIND: Row<'static> = Row {
    editions: &[&[], &[Change::TableEntry, Change::Disable]],
    captures: &[
        Captured {
            entries: &[
                Entered::Other,
                Entered::Malformed(3),
                Entered::Judged(Verdict::Unreach(3), 100, 2, Cause::Rule),
                Entered::Judged(Verdict::Deny, 900, 1, Cause::Limit(2)),
                Entered::Judged(Verdict::Deny, 900, 1, Cause::Full(16384)),
                Entered::Judged(Verdict::Reset, 65535, u64::MAX, Cause::Rule),
            ],
            counted: &[(0, 40)],
            end: CaptureEnd::Read { records: 6 },
        },
        Captured {
            entries: &[],
            counted: &[(0, 28), (1, 9)],
            end: CaptureEnd::Stopped {
                at: 0,
                fault: CaptureFault::ReadFault,
                count: 1,
            },
        },
    ],
    is_asked: false,
    answers: &[
        (7, Told::Refused(ApplyFault::ReservedSet)),
        (9, Told::Rules(1)),
        (10, Told::Nets(2)),
    ],
    hits: &[5, 0],
    text: "1.1 other\n1.2 malformed 3\n1.3 unreach port 00100 at 2\n\
        1.4 deny 00900 at 1 limit 2\n1.5 deny 00900 at 1 full 16384\n\
        1.6 reset 65535 at 18446744073709551615\nend 1 records 6\n\
        fault 2 record 0 ReadFault\n\
        refused line 7 ReservedSet\nlist line 9 edition 1\nrules 1\n\
        65535 set 31 deny ip from any to any\n\
        table nets addr 1 line 10 edition 2\n10.0.0.0/8 7\n\
        editions 2\ndisabled 1 3\nrules 1\n65535 2 68 set 31 deny ip from any to any\n\
        clock 0\nstates 0\ncache 1 hits 5\ncache 2 hits 0\n\
        records 6\nallow 0\ndeny 2\neditions 2\nentries 1\nstates 0\n",
};

#[test]
fn lines_of_each_kind(rt: HostRuntime) -> Result<(), Fail> {
    assert_reported(&rt, rt.alloc(), &EACH_KIND)
}
