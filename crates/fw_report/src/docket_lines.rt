ghost use Rattle.std.specs.Prelude.{◌≡◌, ◌+◌, ◌<◌, ◌≤◌, ◌++◌, Some, length, map, slice_get};
ghost use Rattle.fw_base.specs.Texts.{WritesText};
ghost use Rattle.eval_engine.specs.Dockets as definition;
ghost use Rattle.rule_text.specs.Canonical.{code_word};
ghost use Rattle.report_texts.specs.DocketText as text;
ghost use Rattle.pcap_read.specs.Words.{word_of};

use crate::line::{LINE_BYTES, Line};
use eval_engine::{Cause, Docket, DocketEntry, Judgement, Verdict};
use fw_base::{Failed, Sink};
use fw_rule::UNREACH_NAMES;
use pcap_read::CaptureFault;
use report_texts::CaptureEnd;
use state_asks::RuleRef;

fn name_at<'x>(names: &'x [&'x [u8]], place: usize) -> &'x [u8]
    requires { place < length names.now }
    ensures { slice_get (map (λ name. name.now) names.now) place ≡ Some result.now }
{
    names[place]
}

/// Puts a code of `unreach`, by name where it has one.
fn put_code(line: &mut Line, code: u8)
    requires { length line.old + 20 ≤ LINE_BYTES }
    ensures items { line.new ≡ code_word code ++ line.old }
    ensures room { length line.new ≤ length line.old + 20 }
{
    let place = usize::from(code);
    if place < UNREACH_NAMES.len() {
        line.put_text(name_at(&UNREACH_NAMES, place));
    } else {
        line.put_number(u64::from(code));
    }
}

/// Puts the verdict.
#[inline(always)]
fn put_verdict(line: &mut Line, verdict: Verdict)
    requires { length line.old + 28 ≤ LINE_BYTES }
    ensures items { line.new ≡ text.verdict_word verdict ++ (text.verdict_code verdict ++ line.old) }
    ensures room { length line.new ≤ length line.old + 28 }
{
    match verdict {
        Verdict::Allow => line.put_text(b"allow"),
        Verdict::Deny => line.put_text(b"deny"),
        Verdict::Reset => line.put_text(b"reset"),
        Verdict::Unreach(code) => {
            put_code(line, code);
            line.put_text(b"unreach ");
        }
    }
}

/// Puts the cause.
#[inline(always)]
fn put_cause(line: &mut Line, cause: Cause)
    requires { length line.old + 27 ≤ LINE_BYTES }
    ensures items { line.new ≡ text.cause_word cause ++ (text.cause_count cause ++ line.old) }
    ensures room { length line.new ≤ length line.old + 27 }
{
    match cause {
        Cause::Rule => {}
        Cause::Limit(count) => line.put_counted(b" limit ", count),
        Cause::Full(count) => line.put_counted(b" full ", count),
    }
}

/// The judgement of these fields.
#[inline(always)]
fn judgement_of(verdict: Verdict, cause: Cause, rule: RuleRef, edition: u64) -> Judgement
    ensures { result ≡ definition.judgement_of verdict cause rule edition }
{
    Judgement {
        edition,
        verdict,
        rule,
        cause,
    }
}

/// Puts what is told of a packet that was judged.
#[tactic(auto, unfolding(report_texts::specs::DocketText::judged_text))]
#[inline(always)]
fn put_judged(line: &mut Line, judgement: Judgement)
    ensures items { line.new ≡ text.judged_text judgement }
    ensures room { length line.new ≤ 87 }
{
    line.clear();
    line.put_text(b"\n");
    put_cause(line, judgement.cause);
    line.put_number(judgement.edition);
    line.put_text(b" at ");
    line.put_five_digits(judgement.rule.number);
    line.put_text(b" ");
    put_verdict(line, judgement.verdict);
    line.put_text(b" ");
}

/// Puts what is told of a packet that a count of states refused, which is seldom.
#[inline(never)]
fn put_refused(line: &mut Line, judgement: Judgement)
    ensures items { line.new ≡ text.judged_text judgement }
    ensures room { length line.new ≤ 87 }
{
    put_judged(line, judgement);
}

/// Puts that a record is no packet of IP.
#[tactic(auto, unfolding(report_texts::specs::DocketText::entry_text))]
#[inline(never)]
fn put_other(line: &mut Line)
    ensures items { line.new ≡ text.entry_text DocketEntry.Other }
    ensures room { length line.new ≤ 87 }
{
    line.clear();
    line.put_text(b" other\n");
}

/// Puts that a packet's header can't be read.
#[tactic(auto, unfolding(report_texts::specs::DocketText::entry_text))]
#[inline(never)]
fn put_malformed(line: &mut Line, kind: u8)
    ensures items { line.new ≡ text.entry_text (DocketEntry.Malformed kind) }
    ensures room { length line.new ≤ 87 }
{
    line.clear();
    line.put_text(b"\n");
    line.put_number(u64::from(kind));
    line.put_text(b" malformed ");
}

/// Puts what is told of a record.
#[tactic(auto, unfolding(report_texts::specs::DocketText::entry_text))]
#[inline(always)]
fn put_entry(line: &mut Line, entry: DocketEntry)
    ensures items { line.new ≡ text.entry_text entry }
    ensures room { length line.new ≤ 87 }
{
    match entry {
        DocketEntry::Other => put_other(line),
        DocketEntry::Malformed(kind) => put_malformed(line, kind),
        DocketEntry::Judged {
            verdict,
            rule,
            edition,
        } => put_judged(line, judgement_of(verdict, Cause::Rule, rule, edition)),
        DocketEntry::Limited {
            verdict,
            rule,
            states,
            edition,
        } => put_refused(
            line,
            judgement_of(verdict, Cause::Limit(states), rule, edition),
        ),
        DocketEntry::Full {
            verdict,
            rule,
            states,
            edition,
        } => put_refused(
            line,
            judgement_of(verdict, Cause::Full(states), rule, edition),
        ),
    }
}

/// Writes the line of a record.
#[tactic(auto, unfolding(report_texts::specs::DocketText::record_line))]
fn write_record<K: Sink>(
    out: &mut K,
    line: &mut Line,
    capture: u64,
    at: u64,
    entry: DocketEntry,
) -> Result<(), Failed>
    ensures { WritesText (K.state out.old) (K.state out.new)
        (text.record_line capture at entry) result }
{
    put_entry(line, entry);
    line.put_number(at);
    line.put_text(b".");
    line.put_number(capture);
    line.write(out)
}

fn put_fault(line: &mut Line, fault: CaptureFault)
    requires { length line.old + 20 ≤ LINE_BYTES }
    ensures items { line.new ≡ word_of fault ++ line.old }
    ensures room { length line.new ≤ length line.old + 20 }
{
    line.put_text(fault.word().as_bytes());
}

/// Puts the line of a capture's end.
#[tactic(auto, unfolding(report_texts::specs::DocketText::end_line))]
fn put_end(line: &mut Line, capture: u64, end: CaptureEnd)
    ensures { line.new ≡ text.end_line capture end }
{
    line.clear();
    line.put_text(b"\n");
    match end {
        CaptureEnd::Read { records } => {
            line.put_number(records);
            line.put_text(b" records ");
            line.put_number(capture);
            line.put_text(b"end ");
        }
        CaptureEnd::Stopped { at, fault, .. } => {
            put_fault(line, fault);
            line.put_text(b" ");
            line.put_number(at);
            line.put_text(b" record ");
            line.put_number(capture);
            line.put_text(b"fault ");
        }
    }
}

/// Writes the line of a capture's end.
fn write_end<K: Sink>(
    out: &mut K,
    line: &mut Line,
    capture: u64,
    end: CaptureEnd,
) -> Result<(), Failed>
    ensures { WritesText (K.state out.old) (K.state out.new) (text.end_line capture end) result }
{
    put_end(line, capture, end);
    line.write(out)
}

/// Writes the lines of a capture: one for each record, and one for its end.
fn write_capture<K: Sink>(
    out: &mut K,
    capture: u64,
    entries: &[DocketEntry],
    end: CaptureEnd,
) -> Result<(), Failed>
    ensures { WritesText (K.state out.old) (K.state out.new)
        (text.capture_text capture entries.now end) result }
{
    let mut line = Line::new();
    let mut at = 1u64;
    for entry in entries {
        write_record(out, &mut line, capture, at, *entry)?;
        at += 1;
    }
    write_end(out, &mut line, capture, end)
}

/// Writes the lines of the captures, in their order.
pub(crate) fn write_captures<K: Sink>(
    out: &mut K,
    dockets: &[Docket],
    ends: &[CaptureEnd],
) -> Result<(), Failed>
    ensures { WritesText (K.state out.old) (K.state out.new)
        (text.captures_text 1 dockets.now ends.now) result }
{
    let mut capture = 1u64;
    let mut rest = ends;
    for docket in dockets {
        let Some((end, others)) = rest.split_first() else {
            return Ok(());
        };
        write_capture(out, capture, docket.entries(), *end)?;
        capture += 1;
        rest = others;
    }
    Ok(())
}
