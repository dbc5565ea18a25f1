ghost use Rattle.std.specs.Prelude.{◌≡◌, ◌≢◌, ◌↔◌, ◌++◌, ℕ, List, Option, None, true, is_some, IfSome, MatchOption, codes, decimal};
ghost use Rattle.std.specs.Option.{option_map};
ghost use Rattle.report_texts.specs.DocketText.{record_line};
ghost use Rattle.report_reading.specs.Parts.{behind};
ghost use Rattle.report_values.specs.Captures as spec;

use crate::Lines;
use crate::fields::begins_with_digit;
use crate::lines::whole_line;
use eval_engine::DocketEntry;
use itoa::Buffer;
use report_reading::read_record;

/// The text behind this word, which stands at its front.
fn behind_word<'a>(text: &'a [u8], word: &[u8]) -> Option<&'a [u8]>
    ensures { MatchOption result ((rest : List ℕ) → text.now ≢ word.now ++ rest)
        (λ rest. text.now ≡ word.now ++ rest.now) }
{
    text.strip_prefix(word)
}

/// The text behind this number, which stands at its front as a report writes it.
fn behind_number(text: &[u8], number: u64) -> Option<&[u8]>
    ensures { MatchOption result ((rest : List ℕ) → text.now ≢ decimal number ++ rest)
        (λ rest. text.now ≡ decimal number ++ rest.now) }
{
    let mut digits = Buffer::new();
    behind_word(text, digits.format(number).as_bytes())
}

/// Whether a text begins with this word.
fn begins_with(text: &[u8], word: &[u8]) -> bool
    ensures { result ≡ is_some (behind word.now text.now) }
{
    report_reading::behind(word, text).is_some()
}

/// Whether a text begins as a line of captures does.
#[tactic(auto, unfolding(crate::specs::Captures::begins_capture_line))]
pub(crate) fn begins_capture_line(text: &[u8]) -> bool
    ensures { result ≡ spec.begins_capture_line text.now }
{
    begins_with_digit(text) || begins_with(text, b"end ") || begins_with(text, b"fault ")
}

/// The text before the byte 10 that ends it.
fn before_end(text: &[u8]) -> Option<&[u8]>
    ensures { MatchOption result ((front : List ℕ) → text.now ≢ front ++ codes "\n")
        (λ front. text.now ≡ front.now ++ codes "\n") }
{
    text.strip_suffix(b"\n")
}

/// What stands behind this capture's number and the number of its records, which stand behind `end `.
fn behind_count(text: &[u8], capture: u64, records: u64) -> Option<&[u8]>
    ensures { MatchOption result ((rest : List ℕ) → text.now
        ≢ decimal capture ++ (codes " records " ++ (decimal records ++ rest)))
        (λ rest. text.now
        ≡ decimal capture ++ (codes " records " ++ (decimal records ++ rest.now))) }
{
    let rest = behind_word(behind_number(text, capture)?, b" records ")?;
    behind_number(rest, records)
}

/// What stands behind `fault ` and this capture's number.
fn fault_in(text: &[u8], capture: u64) -> Option<&[u8]>
    ensures { MatchOption result ((fault : List ℕ) → text.now
        ≢ decimal capture ++ (codes " " ++ (fault ++ codes "\n")))
        (λ fault. text.now ≡ decimal capture ++ (codes " " ++ (fault.now ++ codes "\n"))) }
{
    before_end(behind_word(behind_number(text, capture)?, b" ")?)
}

/// What stands behind `end `, this capture's number and the number of its records.
fn behind_end(line: &[u8], capture: u64, records: u64) -> Option<&[u8]>
    ensures { MatchOption result ((rest : List ℕ) → line.now ≢ spec.count_text capture records rest)
        (λ rest. line.now ≡ spec.count_text capture records rest.now) }
{
    behind_count(behind_word(line, b"end ")?, capture, records)
}

/// Whether nothing is left of a line but its end.
fn is_end(text: &[u8]) -> bool
    ensures { (result ≡ true) ↔ (text.now ≡ codes "\n") }
{
    text == b"\n".as_slice()
}

/// Whether the line tells that this capture ended with so many records.
fn tells_end(line: &[u8], capture: u64, records: u64) -> bool
    ensures { (result ≡ true) ↔ (line.now ≡ spec.count_text capture records (codes "\n")) }
{
    match behind_end(line, capture, records) {
        Some(rest) => is_end(rest),
        None => false,
    }
}

/// What the line tells of a fault that ended the capture; `None` where it doesn't tell how that capture ended.
#[tactic(auto, unfolding(crate::specs::Captures::end_text, report_texts::specs::DocketText::end_line))]
fn fault_told(line: &[u8], capture: u64, records: u64) -> Option<Option<&[u8]>>
    ensures { MatchOption result ((fault : Option (List ℕ)) → line.now
        ≢ spec.end_text capture records fault)
        (λ fault. line.now ≡ spec.end_text capture records (option_map (λ text. text.now) fault)) }
{
    if tells_end(line, capture, records) {
        return Some(None);
    }
    Some(Some(fault_in(behind_word(line, b"fault ")?, capture)?))
}

/// How a capture ended.
#[derive(Clone, Copy)]
pub struct EndLine<'a> {
    /// The line that tells it, with the byte 10.
    pub line: &'a [u8],
    /// The record where a fault ended it and the fault, in the report's words, if one did.
    pub fault: Option<&'a [u8]>,
}

impl<'a> Lines<'a> {
    /// Reads the line of this record, where it is the next line, and tells what it tells.
    pub fn record(&mut self, capture: u64, at: u64) -> Option<DocketEntry>
        ensures told { MatchOption result (self.new.rest.now ≡ self.old.rest.now) (λ entry.
            self.old.rest.now ≡ record_line capture at entry ++ self.new.rest.now) }
        ensures none { result ≡ None → spec.IsNoRecord capture at self.old.rest.now }
    {
        let (line, rest) = whole_line(self.rest)?;
        let told = read_record(line)?;
        if told.capture == capture && told.at == at {
            self.rest = rest;
            Some(told.entry)
        } else {
            None
        }
    }

    /// Reads the line that tells how this capture ended, where it is the next line: the line with
    /// the byte 10, and what it tells of a fault.
    pub fn capture_end(&mut self, capture: u64, records: u64) -> Option<EndLine<'a>>
        ensures line { MatchOption result (self.new.rest.now ≡ self.old.rest.now) (λ end.
            self.old.rest.now ≡ end.line.now ++ self.new.rest.now) }
        ensures told { IfSome result (λ end. spec.IsEnd capture records end) }
        ensures none { result ≡ None → spec.IsNoEnd capture records self.old.rest.now }
    {
        let (line, rest) = whole_line(self.rest)?;
        let fault = fault_told(line, capture, records)?;
        self.rest = rest;
        Some(EndLine { line, fault })
    }
}
