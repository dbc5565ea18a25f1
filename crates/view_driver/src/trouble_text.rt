ghost use Rattle.std.specs.Prelude.{◌≡◌};
ghost use Rattle.fw_base.specs.Texts.{WritesText};
ghost use Rattle.pcap_read.specs.Words.{word_of};
ghost use Rattle.view_driver.specs.TroubleText as spec;

use crate::trouble::Trouble;
use fw_base::{Failed, Sink, write_pieces, write_text};
use itoa::Buffer;
use pcap_read::CaptureFault;
use replay_setup::write_unread;

/// How the program is called.
const USAGE: &[u8] = b"usage: report_view moves OLD NEW [in|out:IF:CAPTURE ..] \
    | page [--script SCRIPT] REPORT [NEW] | script SCRIPT [in|out:IF:CAPTURE ..]\n";

/// What stands between the counts of two reports.
const IN_BOTH: &[u8] = b" in the first report, in the second ";

/// Writes two counts, each behind its word.
#[tactic(auto, unfolding(crate::specs::TroubleText::counts_text))]
fn write_counts<K: Sink>(
    out: &mut K,
    word: &[u8],
    old: u64,
    middle: &[u8],
    new: u64,
) -> Result<(), Failed>
    ensures { WritesText (K.state out.old) (K.state out.new)
        (spec.counts_text word.now old middle.now new) result }
{
    let mut old_digits = Buffer::new();
    let mut new_digits = Buffer::new();
    let old = old_digits.format(old).as_bytes();
    let new = new_digits.format(new).as_bytes();
    write_pieces(out, &[word, old, middle, new, b"\n"])
}

/// Writes how many captures two reports have.
#[tactic(auto, unfolding(crate::specs::TroubleText::captures_text, crate::specs::TroubleText::in_both))]
fn write_captures<K: Sink>(out: &mut K, old: u64, new: u64) -> Result<(), Failed>
    ensures { WritesText (K.state out.old) (K.state out.new) (spec.captures_text old new) result }
{
    write_counts(out, b"captures: ", old, IN_BOTH, new)
}

/// Writes how many captures the reports have, and how many others were named.
#[tactic(auto, unfolding(crate::specs::TroubleText::named_text))]
fn write_named<K: Sink>(out: &mut K, told: u64, named: u64) -> Result<(), Failed>
    ensures { WritesText (K.state out.old) (K.state out.new) (spec.named_text told named) result }
{
    write_counts(out, b"captures: ", told, b" in the reports, named ", named)
}

/// Writes which capture doesn't have as many records in both reports.
#[tactic(auto, unfolding(crate::specs::TroubleText::records_text, crate::specs::TroubleText::in_both))]
fn write_other_count<K: Sink>(out: &mut K, capture: u64, old: u64, new: u64) -> Result<(), Failed>
    ensures { WritesText (K.state out.old) (K.state out.new)
        (spec.records_text capture old new) result }
{
    let mut digits = Buffer::new();
    let mut old_digits = Buffer::new();
    let mut new_digits = Buffer::new();
    let capture = digits.format(capture).as_bytes();
    let old = old_digits.format(old).as_bytes();
    let new = new_digits.format(new).as_bytes();
    write_pieces(
        out,
        &[
            b"capture ",
            capture,
            b": records: ",
            old,
            IN_BOTH,
            new,
            b"\n",
        ],
    )
}

/// Writes at which record a capture has a fault of this name.
#[tactic(auto, unfolding(crate::specs::TroubleText::fault_word_text))]
fn write_fault_word<K: Sink>(
    out: &mut K,
    name: &[u8],
    record: u64,
    word: &[u8],
) -> Result<(), Failed>
    ensures { WritesText (K.state out.old) (K.state out.new)
        (spec.fault_word_text name.now «record» word.now) result }
{
    let mut digits = Buffer::new();
    let record = digits.format(record).as_bytes();
    write_pieces(out, &[name, b": record ", record, b" ", word, b"\n"])
}

/// Writes at which record a capture has a fault.
fn write_fault<K: Sink>(
    out: &mut K,
    name: &[u8],
    record: u64,
    fault: CaptureFault,
) -> Result<(), Failed>
    ensures { WritesText (K.state out.old) (K.state out.new)
        (spec.fault_word_text name.now «record» (word_of fault)) result }
{
    write_fault_word(out, name, record, fault.word().as_bytes())
}

/// Writes at which line a report is none.
#[tactic(auto, unfolding(crate::specs::TroubleText::no_report_text))]
fn write_no_report<K: Sink>(out: &mut K, name: &[u8], line: u64) -> Result<(), Failed>
    ensures { WritesText (K.state out.old) (K.state out.new)
        (spec.no_report_text name.now line) result }
{
    let mut digits = Buffer::new();
    let line = digits.format(line).as_bytes();
    write_pieces(
        out,
        &[
            name,
            b": line ",
            line,
            b" is none that a report has there\n",
        ],
    )
}

/// Writes that a report has no journal.
#[tactic(auto, unfolding(crate::specs::TroubleText::no_journal_text))]
fn write_no_journal<K: Sink>(out: &mut K, name: &[u8]) -> Result<(), Failed>
    ensures { WritesText (K.state out.old) (K.state out.new)
        (spec.no_journal_text name.now) result }
{
    write_pieces(
        out,
        &[
            name,
            b": has no journal, which ipfw_replay prints with --journal\n",
        ],
    )
}

/// Writes at which line a report is not of its script.
#[tactic(auto, unfolding(crate::specs::TroubleText::other_script_text))]
fn write_other_script<K: Sink>(
    out: &mut K,
    report: &[u8],
    line: u64,
    script: &[u8],
) -> Result<(), Failed>
    ensures { WritesText (K.state out.old) (K.state out.new)
        (spec.other_script_text report.now line script.now) result }
{
    let mut digits = Buffer::new();
    let line = digits.format(line).as_bytes();
    write_pieces(
        out,
        &[
            report,
            b": line ",
            line,
            b" is not what ",
            script,
            b" gives\n",
        ],
    )
}

/// Writes that a capture hasn't the records that its reports tell.
#[tactic(auto, unfolding(crate::specs::TroubleText::other_records_text))]
fn write_other_records<K: Sink>(
    out: &mut K,
    name: &[u8],
    told: u64,
    read: u64,
) -> Result<(), Failed>
    ensures { WritesText (K.state out.old) (K.state out.new)
        (spec.other_records_text name.now told read) result }
{
    let mut told_digits = Buffer::new();
    let mut read_digits = Buffer::new();
    let told = told_digits.format(told).as_bytes();
    let read = read_digits.format(read).as_bytes();
    write_pieces(
        out,
        &[
            name,
            b": records: ",
            told,
            b" in the reports, in the capture ",
            read,
            b"\n",
        ],
    )
}

/// Writes why there is nothing to show.
#[tactic(auto, unfolding(crate::specs::TroubleText::trouble_text, crate::specs::TroubleText::usage_text))]
pub(crate) fn write_trouble<K: Sink>(out: &mut K, trouble: Trouble<'_>) -> Result<(), Failed>
    ensures { WritesText (K.state out.old) (K.state out.new)
        (spec.trouble_text trouble.entry) result }
{
    match trouble {
        Trouble::Usage => write_text(out, USAGE),
        Trouble::Unread(name) => write_unread(out, name),
        Trouble::NoReport(name, line) => write_no_report(out, name, line),
        Trouble::Script(error) => error.write(out),
        Trouble::NoJournal(name) => write_no_journal(out, name),
        Trouble::OtherScript {
            report,
            line,
            script,
        } => write_other_script(out, report, line, script),
        Trouble::Captures { old, new } => write_captures(out, old, new),
        Trouble::Records { capture, old, new } => write_other_count(out, capture, old, new),
        Trouble::Named { told, named } => write_named(out, told, named),
        Trouble::OtherRecords { name, told, read } => write_other_records(out, name, told, read),
        Trouble::Capture {
            name,
            record,
            fault,
        } => write_fault(out, name, record, fault),
        Trouble::OutOfMemory => Ok(()),
    }
}

/// The status of a trouble whose line was written.
pub(crate) fn trouble_status(trouble: &Trouble<'_>) -> u8
    ensures { result ≡ spec.trouble_status trouble.now }
{
    match trouble {
        Trouble::Usage => 1,
        Trouble::NoReport(_, _) | Trouble::Script(_) => 2,
        Trouble::NoJournal(_)
        | Trouble::OtherScript { .. }
        | Trouble::Captures { .. }
        | Trouble::Records { .. }
        | Trouble::Named { .. }
        | Trouble::OtherRecords { .. }
        | Trouble::Capture { .. } => 3,
        Trouble::Unread(_) => 4,
        Trouble::OutOfMemory => 6,
    }
}
