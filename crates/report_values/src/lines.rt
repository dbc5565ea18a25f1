ghost use Rattle.std.specs.Prelude.{◌≡◌, ◌++◌, ◌<◌, ◌≤◌, true, None, Some, IfSome, MatchOption, count_by, length, position};
ghost use Rattle.std.specs.Option.{option_map};
ghost use Rattle.report_values.specs.Captures.{is_line};
ghost use Rattle.report_values.specs.Lines as spec;

use report_reading::behind;

fn line_end(text: &[u8]) -> Option<usize>
    ensures found { result ≡ position spec.is_end text.now }
    ensures within { IfSome result (λ at. at < length text.now) }
{
    text.iter().position(|byte| *byte == b'\n')
}

/// The first line of a text, without the byte 10 that ends it, and the text behind it; `None` where
/// no such byte is there.
#[tactic(auto, unfolding(crate::specs::Lines::first_line))]
fn first_line(text: &[u8]) -> Option<(&[u8], &[u8])>
    ensures { option_map (λ line. (line.0.now, line.1.now)) result ≡ spec.first_line text.now }
{
    let at = line_end(text)?;
    Some((&text[..at], &text[at + 1..]))
}

/// The first line of a text with the byte 10 that ends it, and the text behind it; `None` where no
/// such byte is there.
#[tactic(auto, unfolding(crate::specs::Lines::whole_line))]
pub(crate) fn whole_line(text: &[u8]) -> Option<(&[u8], &[u8])>
    ensures is { option_map (λ line. (line.0.now, line.1.now)) result ≡ spec.whole_line text.now }
    ensures whole { IfSome result (λ line. text.now ≡ line.0.now ++ line.1.now) }
    ensures one { IfSome result (λ line. is_line line.0.now ≡ true) }
{
    let at = line_end(text)?;
    Some((&text[..at + 1], &text[at + 1..]))
}

/// What stands behind a word in the first line, and the text behind that line.
#[tactic(auto, unfolding(crate::specs::Lines::told_at))]
fn told_at<'a>(word: &[u8], text: &'a [u8]) -> Option<(&'a [u8], &'a [u8])>
    ensures { option_map (λ line. (line.0.now, line.1.now)) result ≡ spec.told_at word.now text.now }
{
    let (line, rest) = first_line(text)?;
    let told = behind(word, line)?;
    Some((told, rest))
}

/// How many lines end in a text.
fn ends_in(text: &[u8]) -> usize
    ensures count { result ≡ count_by spec.is_end text.now }
    ensures within { result ≤ length text.now }
{
    text.iter().filter(|byte| **byte == b'\n').count()
}

/// The number of the line with which this rest of a text begins, from 1.
#[tactic(auto, unfolding(crate::specs::Lines::line_number))]
pub(crate) fn line_number(text: &[u8], rest: &[u8]) -> u64
    ensures { result ≡ spec.line_number text.now rest.now }
{
    ends_in(text).saturating_sub(ends_in(rest)) as u64 + 1
}

/// A text, read line by line.
#[derive(Clone, Copy)]
pub struct Lines<'a> {
    /// All of it.
    pub text: &'a [u8],
    /// What wasn't read yet.
    pub rest: &'a [u8],
}

impl<'a> Lines<'a> {
    /// All lines of a text.
    pub fn new(text: &'a [u8]) -> Lines<'a>
        ensures text { result.text.now ≡ text.now }
        ensures rest { result.rest.now ≡ text.now }
    {
        Lines { text, rest: text }
    }

    /// Reads the next line, where it begins with this word, and tells what stands behind the word.
    pub fn behind(&mut self, word: &[u8]) -> Option<&'a [u8]>
        ensures { MatchOption result
            ((spec.told_at word.now self.old.rest.now ≡ None) × (self.new.rest.now ≡ self.old.rest.now))
            (λ told. spec.told_at word.now self.old.rest.now ≡ Some (told.now, self.new.rest.now)) }
    {
        let (told, rest) = told_at(word, self.rest)?;
        self.rest = rest;
        Some(told)
    }
}
