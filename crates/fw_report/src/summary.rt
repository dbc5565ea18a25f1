ghost use Rattle.std.specs.Prelude.{◌≡◌, ◌+◌, ◌≤◌, ◌++◌, count_by, decimal, length};
ghost use Rattle.fw_base.specs.Texts.{WritesText};
ghost use Rattle.report_texts.specs.Summary as text;

use crate::line::{LINE_BYTES, Line};
use eval_engine::{Docket, DocketEntry, Verdict};
use fw_base::{Failed, Sink};
use itoa::Buffer;
use report_texts::Recorded;
use rule_text::WriteFault;

fn is_allowed(entry: &DocketEntry) -> bool
    ensures { result ≡ text.is_judged text.is_allow entry.now }
{
    match entry {
        DocketEntry::Other | DocketEntry::Malformed(_) => false,
        DocketEntry::Judged { verdict, .. }
        | DocketEntry::Limited { verdict, .. }
        | DocketEntry::Full { verdict, .. } => match verdict {
            Verdict::Allow => true,
            Verdict::Deny | Verdict::Reset | Verdict::Unreach(_) => false,
        },
    }
}

fn is_denied(entry: &DocketEntry) -> bool
    ensures { result ≡ text.is_judged text.is_deny entry.now }
{
    match entry {
        DocketEntry::Other | DocketEntry::Malformed(_) => false,
        DocketEntry::Judged { verdict, .. }
        | DocketEntry::Limited { verdict, .. }
        | DocketEntry::Full { verdict, .. } => match verdict {
            Verdict::Deny => true,
            Verdict::Allow | Verdict::Reset | Verdict::Unreach(_) => false,
        },
    }
}

/// How many records were let through.
fn allowed(entries: &[DocketEntry]) -> usize
    ensures { result ≡ count_by (text.is_judged text.is_allow) entries.now }
{
    entries.iter().filter(|entry| is_allowed(entry)).count()
}

/// How many records have the verdict `deny`.
fn denied(entries: &[DocketEntry]) -> usize
    ensures { result ≡ count_by (text.is_judged text.is_deny) entries.now }
{
    entries.iter().filter(|entry| is_denied(entry)).count()
}

/// How many records all lanes have, and how many of a verdict.
#[derive(Clone, Copy)]
struct Totals {
    records: u128,
    allowed: u128,
    denied: u128,
}

fn add_up(dockets: &[Docket]) -> Totals
    ensures records { result.records ≡ text.records_in dockets.now }
    ensures allowed { result.allowed ≡ text.judged_in text.is_allow dockets.now }
    ensures denied { result.denied ≡ text.judged_in text.is_deny dockets.now }
{
    let mut records = 0u128;
    let mut allows = 0u128;
    let mut denies = 0u128;
    for docket in dockets {
        let entries = docket.entries();
        records += entries.len() as u128;
        allows += allowed(entries) as u128;
        denies += denied(entries) as u128;
    }
    Totals {
        records,
        allowed: allows,
        denied: denies,
    }
}

/// Puts a count of records, which has at most 39 digits.
fn put_count(line: &mut Line, count: u128)
    requires { length line.old + 40 ≤ LINE_BYTES }
    ensures items { line.new ≡ decimal count ++ line.old }
    ensures room { length line.new ≤ length line.old + 40 }
{
    let mut digits = Buffer::new();
    line.put_text(digits.format(count).as_bytes());
}

#[tactic(auto, unfolding(report_texts::specs::Summary::summary_text))]
fn write_totals<K: Sink>(
    out: &mut K,
    dockets: &[Docket],
    editions: usize,
    entries: usize,
    states: usize,
) -> Result<(), Failed>
    ensures { WritesText (K.state out.old) (K.state out.new)
        (text.summary_text dockets.now editions entries states) result }
{
    let counted = add_up(dockets);
    let mut line = Line::new();
    line.put_text(b"\n");
    line.put_number(states as u64);
    line.put_text(b"\nstates ");
    line.put_number(entries as u64);
    line.put_text(b"\nentries ");
    line.put_number(editions as u64);
    line.put_text(b"\neditions ");
    put_count(&mut line, counted.denied);
    line.put_text(b"\ndeny ");
    put_count(&mut line, counted.allowed);
    line.put_text(b"\nallow ");
    put_count(&mut line, counted.records);
    line.put_text(b"records ");
    line.write(out)
}

/// Writes the summary of a run: six lines, of its records, those that were let through, those of the
/// verdict `deny`, its editions, the entries of the journal, and the live states. The counts of the rules
/// don't stand there. It takes no memory. Where the sink fails, a front of the text was written.
pub fn write_summary<K: Sink>(recorded: &Recorded<'_>, out: &mut K) -> Result<(), WriteFault>
    ensures { WritesText (K.state out.old) (K.state out.new)
        (text.summary_text recorded.now.dockets (length recorded.now.editions)
        (length recorded.now.journal.entries) (length recorded.now.journal.object.states))
        result }
{
    let book = recorded.book;
    let states = book.states().count();
    write_totals(
        out,
        recorded.dockets,
        recorded.editions.len(),
        book.entries().len(),
        states,
    )
    .map_err(|_| WriteFault)
}
