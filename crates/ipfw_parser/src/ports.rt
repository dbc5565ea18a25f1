ghost use Rattle.std.specs.Prelude.{◌≡◌, ◌<◌, ◌≤◌, IfSome, IfOk, map};
ghost use Rattle.std.specs.Option.{option_map, option_copied};
ghost use Rattle.ipfw_parser.specs.Reading.{ReadsAs};
ghost use Rattle.ipfw_parser.specs.Views.{view, list_of};
ghost use Rattle.ipfw_parser.specs.Ports as spec;

use crate::cut::{cut, first_element};
use crate::names::service;
use crate::negation::negation;
use crate::numbers::{MOST_DIGITS, decimal, starts_with_digit, up_to};
use crate::{Kind, ParseFault, Word, Words};
use fw_base::PortRange;
use fw_rule::{Items, PortList};
use std::alloc::Global;

/// A port: a service or a number, 0 to 65535.
#[tactic(auto, unfolding(crate::specs::Ports::port))]
fn port(word: Word<'_>) -> Result<u16, ParseFault>
    ensures { ReadsAs (λ p. p) result (spec.port (view word.entry)) }
{
    match service(word.text) {
        Some(port) => Ok(port),
        None => match up_to(decimal(word.text, MOST_DIGITS), 65535) {
            Some(port) => Ok(port as u16),
            None => Err(word.fault(Kind::BadPort)),
        },
    }
}

fn range_to<'a>(word: Word<'a>, low: u16, text: Option<&'a [u8]>) -> Result<PortRange, ParseFault>
    ensures { ReadsAs (λ r. r) result
        (spec.range_to word.entry.column low (option_copied text.entry)) }
{
    let high = match text {
        None => low,
        Some(text) => port(Word {
            column: word.column,
            text,
        })?,
    };
    match PortRange::new(low, high) {
        Some(range) => Ok(range),
        None => Err(word.fault(Kind::BadRange)),
    }
}

#[tactic(auto, unfolding(crate::specs::Ports::range))]
fn range(word: Word<'_>) -> Result<PortRange, ParseFault>
    ensures { ReadsAs (λ r. r) result (spec.range (view word.entry)) }
{
    let (front, rest) = cut(word.text, b'-');
    let low = port(Word {
        column: word.column,
        text: front,
    })?;
    range_to(word, low, rest)
}

#[tactic(auto, unfolding(crate::specs::Ports::ranges))]
fn ranges(alloc: Global, word: Word<'_>) -> Result<Items<PortRange>, ParseFault>
    ensures { ReadsAs (λ r. r) result (spec.ranges (view word.entry)) }
{
    let mut found = Vec::new(alloc);
    let mut rest = Some(word.text);
    while let Some(text) = rest {
        let (element, more) = first_element(text);
        let element = Word {
            column: word.column,
            text: element,
        };
        found.push(range(element)?)?;
        rest = more;
    }
    Ok(Items::from_vec(found))
}

/// A list of ports in one word, `not` before it or not.
#[tactic(auto, unfolding(crate::specs::Ports::port_list))]
fn port_list(alloc: Global, end: u32, words: Words<'_>) -> Result<(PortList, Words<'_>), ParseFault>
    ensures { ReadsAs (λ r. (r.0, list_of r.1)) result (spec.port_list end (list_of words.entry)) }
{
    let (negated, words) = negation(end, words)?;
    let (list, words) = words.first(end)?;
    let ranges = ranges(alloc, list)?;
    Ok((PortList { negated, ranges }, words))
}

/// Ports behind source addresses: each word but `to` is a list of ports.
#[tactic(auto, unfolding(crate::specs::Ports::source_ports))]
pub(crate) fn source_ports(
    alloc: Global,
    end: u32,
    words: Words<'_>,
) -> Result<(Option<PortList>, Words<'_>), ParseFault>
    ensures { ReadsAs (λ r. (r.0, list_of r.1)) result (spec.source_ports end (list_of words.entry)) }
{
    let (next, _rest) = words.first(end)?;
    if next.is(b"to") {
        return Ok((None, words));
    }
    let (ports, words) = port_list(alloc, end, words)?;
    Ok((Some(ports), words))
}

/// Whether the text begins as a list of ports does: with a digit or a service.
#[tactic(auto, unfolding(crate::specs::Ports::looks_like_ports))]
fn looks_like_ports(text: &[u8]) -> bool
    ensures { result ≡ spec.looks_like_ports text.now }
{
    if starts_with_digit(text) {
        return true;
    }
    let (element, _rest) = cut(text, b',');
    let (front, _rest) = cut(element, b'-');
    service(front).is_some()
}

/// Whether the next words are a list of ports, `not` before it or not.
#[tactic(auto, unfolding(crate::specs::Ports::begin_with_ports))]
fn begin_with_ports(words: Words<'_>) -> bool
    ensures { result ≡ spec.begin_with_ports (list_of words.entry) }
{
    let Some((word, rest)) = words.next() else {
        return false;
    };
    let Some((next, _rest)) = rest.next() else {
        return looks_like_ports(word.text);
    };
    if word.is(b"not") {
        looks_like_ports(next.text)
    } else {
        looks_like_ports(word.text)
    }
}

/// Ports behind destination addresses, where the next words look like ports.
#[tactic(auto, unfolding(crate::specs::Ports::destination_ports))]
pub(crate) fn destination_ports(
    alloc: Global,
    end: u32,
    words: Words<'_>,
) -> Result<(Option<PortList>, Words<'_>), ParseFault>
    ensures { ReadsAs (λ r. (r.0, list_of r.1)) result
        (spec.destination_ports end (list_of words.entry)) }
{
    if !begin_with_ports(words) {
        return Ok((None, words));
    }
    let (ports, words) = port_list(alloc, end, words)?;
    Ok((Some(ports), words))
}
