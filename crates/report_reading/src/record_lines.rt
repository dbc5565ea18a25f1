ghost use Rattle.std.specs.Prelude.{◌≡◌, ℕ, ◌≤◌, ◌++◌, codes, length, map, Some, IfSome};
ghost use Rattle.std.specs.Option.{option_map};
ghost use Rattle.eval_engine.specs.Dockets.{entry_by_cause};
ghost use Rattle.report_reading.specs.Parts.{positive_at};
ghost use Rattle.report_reading.specs.RecordLines as spec;
ghost use Rattle.report_texts.specs.DocketText.{record_line};

use crate::parts::{behind, is_end, is_word, number, positive, rule_number};
use eval_engine::{Cause, DocketEntry, Judgement, Verdict};
use fw_base::MOST_CAPTURES;
use fw_rule::UNREACH_NAMES;
use state_asks::RuleRef;

/// What a line of a record tells. Of a rule it tells the number alone: the identity is 0.
#[derive(Clone, Copy)]
pub struct RecordLine {
    /// The capture, 1 to 16.
    pub capture: u64,
    /// The record of this capture, from 1.
    pub at: u64,
    pub entry: DocketEntry,
}

/// The code whose name and a space the text begins with.
pub(crate) fn named_code<'a>(names: &[&[u8]], text: &'a [u8]) -> Option<(u8, &'a [u8])>
    requires { length names.now ≤ 16 }
    ensures { option_map (λ found. (found.0, found.1.now)) result
        ≡ spec.named_code_at (map (λ name. name.now) names.now) 0 text.now }
{
    for (code, name) in names.iter().enumerate() {
        match named(name, text) {
            Some(rest) => return Some((code as u8, rest)),
            None => {}
        }
    }
    None
}

/// The text behind a name and a space that the text begins with.
fn named<'a>(name: &[u8], text: &'a [u8]) -> Option<&'a [u8]>
    ensures { option_map (λ rest. rest.now) result ≡ spec.named name.now text.now }
{
    behind(b" ", behind(name, text)?)
}

/// A code of `unreach` that has no name, and the space behind it.
#[tactic(auto, unfolding(crate::specs::RecordLines::plain_code))]
fn plain_code(text: &[u8]) -> Option<(u8, &[u8])>
    ensures { option_map (λ found. (found.0, found.1.now)) result ≡ spec.plain_code (positive_at 255 text.now) }
{
    let (code, rest) = positive(text, 255)?;
    if code < 16 {
        return None;
    }
    let rest = behind(b" ", rest)?;
    Some((code as u8, rest))
}

/// The number of a code of `unreach`, and the space behind it.
fn any_code(text: &[u8]) -> Option<(u8, &[u8])>
    ensures { option_map (λ found. (found.0, found.1.now)) result ≡ spec.any_code_at text.now }
{
    match named_code(&UNREACH_NAMES, text) {
        Some(found) => Some(found),
        None => plain_code(text),
    }
}

/// A code of `unreach` and the space behind it.
#[tactic(auto, unfolding(crate::specs::RecordLines::code_at))]
fn code(text: &[u8]) -> Option<(Verdict, &[u8])>
    ensures { option_map (λ found. (found.0, found.1.now)) result ≡ spec.code_at text.now }
{
    let (code, rest) = any_code(text)?;
    Some((Verdict::Unreach(code), rest))
}

/// A verdict between its spaces.
#[tactic(auto, unfolding(crate::specs::RecordLines::verdict_at))]
fn verdict(text: &[u8]) -> Option<(Verdict, &[u8])>
    ensures { option_map (λ found. (found.0, found.1.now)) result ≡ spec.verdict_at text.now }
{
    if let Some(rest) = behind(b" allow ", text) {
        Some((Verdict::Allow, rest))
    } else if let Some(rest) = behind(b" deny ", text) {
        Some((Verdict::Deny, rest))
    } else if let Some(rest) = behind(b" reset ", text) {
        Some((Verdict::Reset, rest))
    } else {
        code(behind(b" unreach ", text)?)
    }
}

/// A count of states behind its word, to the line's end.
#[tactic(auto, unfolding(crate::specs::RecordLines::count_in))]
pub(crate) fn count(word: &[u8], text: &[u8]) -> Option<u32>
    ensures { result ≡ spec.count_in word.now text.now }
{
    let (count, rest) = number(behind(word, text)?, u64::from(u32::MAX))?;
    if is_end(rest) {
        Some(count as u32)
    } else {
        None
    }
}

/// The cause, to the line's end.
#[tactic(auto, unfolding(crate::specs::RecordLines::cause_in))]
fn cause(text: &[u8]) -> Option<Cause>
    ensures { result ≡ spec.cause_in text.now }
{
    if is_end(text) {
        Some(Cause::Rule)
    } else if let Some(states) = count(b" limit ", text) {
        Some(Cause::Limit(states))
    } else {
        Some(Cause::Full(count(b" full ", text)?))
    }
}

/// The entry of a judgement by a rule of this number.
fn entry_of(cause: Cause, verdict: Verdict, number: u16, edition: u64) -> DocketEntry
    ensures { result ≡ entry_by_cause cause verdict (record { id = 0; number = number }) edition }
{
    let rule = RuleRef { id: 0, number };
    DocketEntry::judged(Judgement {
        edition,
        verdict,
        rule,
        cause,
    })
}

/// An entry of a judgement, to the line's end.
#[tactic(auto, unfolding(crate::specs::RecordLines::judged_in))]
fn judged(text: &[u8]) -> Option<DocketEntry>
    ensures { result ≡ spec.judged_in text.now }
{
    let (verdict, rest) = verdict(text)?;
    let (number, rest) = rule_number(rest)?;
    let (edition, rest) = positive(behind(b" at ", rest)?, u64::MAX)?;
    let cause = cause(rest)?;
    Some(entry_of(cause, verdict, number, edition))
}

/// That a header can't be read, to the line's end.
#[tactic(auto, unfolding(crate::specs::RecordLines::malformed_in))]
fn malformed(text: &[u8]) -> Option<DocketEntry>
    ensures { result ≡ spec.malformed_in text.now }
{
    let (kind, rest) = positive(behind(b" malformed ", text)?, 5)?;
    if is_end(rest) {
        Some(DocketEntry::Malformed(kind as u8))
    } else {
        None
    }
}

/// What is told of a record, to the line's end.
#[tactic(auto, unfolding(crate::specs::RecordLines::entry_in))]
fn entry(text: &[u8]) -> Option<DocketEntry>
    ensures { result ≡ spec.entry_in text.now }
{
    if is_word(text, b" other\n") {
        Some(DocketEntry::Other)
    } else if let Some(entry) = malformed(text) {
        Some(entry)
    } else {
        judged(text)
    }
}

/// What the line of a record tells; `None` where the line is none.
#[tactic(auto, unfolding(crate::specs::RecordLines::record_in))]
pub(crate) fn record_in(line: &[u8]) -> Option<RecordLine>
    ensures { result ≡ spec.record_in line.now }
{
    let (capture, rest) = positive(line, u64::from(MOST_CAPTURES))?;
    let (at, rest) = positive(behind(b".", rest)?, u64::MAX)?;
    let entry = entry(rest)?;
    Some(RecordLine { capture, at, entry })
}

/// What the line of a record tells; `None` where the line is none.
pub fn read_record(line: &[u8]) -> Option<RecordLine>
    ensures found { IfSome result (λ told. line.now ≡ record_line told.capture told.at told.entry) }
    ensures within { IfSome result (λ told. spec.IsRecord told.capture told.at told.entry) }
    ensures only { (capture at : ℕ) (entry : DocketEntry) → spec.IsRecord capture at entry
        → line.now ≡ record_line capture at entry
        → result ≡ Some (record { capture = capture; at = at; entry = spec.printed entry }) }
{
    record_in(line)
}
