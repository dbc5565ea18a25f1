ghost use Rattle.std.specs.Prelude.{◌≡◌, ◌<◌, ◌==◌, IfSome, length, position};
ghost use Rattle.std.specs.Option.{option_map};
ghost use Rattle.report_values.specs.Fields as spec;

use crate::CountedRule;
use report_reading::{behind, number_on};

/// Whether a text begins with a digit.
#[tactic(auto, unfolding(crate::specs::Fields::begins_with_digit))]
pub(crate) fn begins_with_digit(text: &[u8]) -> bool
    ensures { result ≡ spec.begins_with_digit text.now }
{
    match text {
        [first, ..] => first.is_ascii_digit(),
        [] => false,
    }
}

/// The number of 64 bits that the digits at the front write, and the text behind them.
#[tactic(auto, unfolding(crate::specs::Fields::number_at))]
fn number(text: &[u8]) -> Option<(u64, &[u8])>
    ensures { option_map (λ found. (found.0, found.1.now)) result ≡ spec.number_at text.now }
{
    if begins_with_digit(text) {
        number_on(text, u64::MAX)
    } else {
        None
    }
}

/// The number that is all of a text.
#[tactic(auto, unfolding(crate::specs::Fields::whole_number))]
pub(crate) fn whole_number(text: &[u8]) -> Option<u64>
    ensures { result ≡ spec.whole_number text.now }
{
    match number(text)? {
        (value, []) => Some(value),
        _ => None,
    }
}

/// The number at the front, and the text behind it and this word.
#[tactic(auto, unfolding(crate::specs::Fields::number_before))]
fn number_before<'a>(text: &'a [u8], word: &[u8]) -> Option<(u64, &'a [u8])>
    ensures { option_map (λ found. (found.0, found.1.now)) result
        ≡ spec.number_before word.now text.now }
{
    let (value, rest) = number(text)?;
    let rest = behind(word, rest)?;
    Some((value, rest))
}

/// The number of a rule, and the text behind it and a space.
#[tactic(auto, unfolding(crate::specs::Fields::rule_number_at))]
pub(crate) fn rule_number(text: &[u8]) -> Option<(u16, &[u8])>
    ensures { option_map (λ found. (found.0, found.1.now)) result ≡ spec.rule_number_at text.now }
{
    let (value, rest) = number_before(text, b" ")?;
    if value <= 65535 {
        Some((value as u16, rest))
    } else {
        None
    }
}

/// The edition at the end of `L edition E`.
#[tactic(auto, unfolding(crate::specs::Fields::edition_in))]
pub(crate) fn edition_in(text: &[u8]) -> Option<u64>
    ensures { result ≡ spec.edition_in text.now }
{
    let (_, rest) = number_before(text, b" edition ")?;
    whole_number(rest)
}

/// Where the first space stands.
fn blank_in(text: &[u8]) -> Option<usize>
    ensures found { result ≡ position (λ byte. byte == 32) text.now }
    ensures within { IfSome result (λ at. at < length text.now) }
{
    text.iter().position(|byte| *byte == b' ')
}

/// The text behind the word that tells what a table's entries are.
#[tactic(auto, unfolding(crate::specs::Fields::behind_kind))]
fn behind_kind(text: &[u8]) -> Option<&[u8]>
    ensures { option_map (λ rest. rest.now) result ≡ spec.behind_kind text.now }
{
    match behind(b" addr ", text) {
        Some(rest) => Some(rest),
        None => behind(b" number ", text),
    }
}

/// How many entries the answer to `table NAME list` has, from its first line behind `table `.
#[tactic(auto, unfolding(crate::specs::Fields::entries_in))]
pub(crate) fn entries_in(text: &[u8]) -> Option<u64>
    ensures { result ≡ spec.entries_in text.now }
{
    let blank = blank_in(text)?;
    let rest = behind_kind(&text[blank..])?;
    let (count, rest) = number_before(rest, b" line ")?;
    let _edition = edition_in(rest)?;
    Some(count)
}

/// A rule of the last edition with what it counted.
#[tactic(auto, unfolding(crate::specs::Fields::counted_rule))]
pub(crate) fn counted_rule(line: &[u8]) -> Option<CountedRule<'_>>
    ensures { option_map (λ rule. (rule.number, rule.packets, rule.bytes, rule.text.now)) result
        ≡ spec.counted_rule line.now }
{
    let (number, rest) = rule_number(line)?;
    let (packets, rest) = number_before(rest, b" ")?;
    let (bytes, text) = number_before(rest, b" ")?;
    Some(CountedRule {
        number,
        packets,
        bytes,
        text,
    })
}

/// The hits of this capture's cache, from `C hits N`.
#[tactic(auto, unfolding(crate::specs::Fields::hits_in))]
pub(crate) fn hits_in(told: &[u8], capture: u64) -> Option<u64>
    ensures { result ≡ spec.hits_in capture told.now }
{
    let (number, rest) = number_before(told, b" hits ")?;
    let hits = whole_number(rest)?;
    if number == capture { Some(hits) } else { None }
}

/// The tracker of this capture's lane, from `C refused N tracker W`.
#[tactic(auto, unfolding(crate::specs::Fields::lane_in))]
pub(crate) fn lane_in(told: &[u8], capture: u64) -> Option<u64>
    ensures { result ≡ spec.lane_in capture told.now }
{
    let (number, rest) = number_before(told, b" refused ")?;
    let (_, rest) = number_before(rest, b" tracker ")?;
    let tracker = whole_number(rest)?;
    if number == capture {
        Some(tracker)
    } else {
        None
    }
}
