ghost use Rattle.std.specs.Prelude.{◌≡◌};
ghost use Rattle.std.specs.Option.{option_map};
ghost use Rattle.report_reading.specs.LightLines as spec;

use crate::flow_texts::octets;
use crate::parts::{behind, is_end, number, rule_number};
use crate::record_lines::named_code;

/// The words with which lines begin of which only the whole text counts.
const HEAD_WORDS: [&[u8]; 11] = [
    b"end",
    b"fault",
    b"refused line",
    b"list line",
    b"rules",
    b"table",
    b"editions",
    b"disabled",
    b"clock",
    b"states",
    b"journal 2",
];

/// Whether a line begins with one of these words and a space.
#[tactic(auto, unfolding(crate::specs::LightLines::has_head, crate::specs::LightLines::head_words))]
fn has_head(line: &[u8]) -> bool
    ensures { result ≡ spec.has_head line.now }
{
    named_code(&HEAD_WORDS, line).is_some()
}

/// The text behind a rule's number and a space.
#[tactic(auto, unfolding(crate::specs::LightLines::behind_rule_number))]
fn behind_rule_number(line: &[u8]) -> Option<&[u8]>
    ensures { option_map (λ rest. rest.now) result ≡ spec.behind_rule_number line.now }
{
    let (_, rest) = rule_number(line)?;
    behind(b" ", rest)
}

/// Whether a line begins with the number of a rule and a space.
#[tactic(auto, unfolding(crate::specs::LightLines::has_rule_number))]
fn has_rule_number(line: &[u8]) -> bool
    ensures { result ≡ spec.has_rule_number line.now }
{
    behind_rule_number(line).is_some()
}

/// Whether a line has its byte 10.
#[tactic(auto, unfolding(crate::specs::LightLines::has_end))]
fn has_end(line: &[u8]) -> bool
    ensures { result ≡ spec.has_end line.now }
{
    1 <= line.len() && line[line.len() - 1] == b'\n'
}

/// The value of an entry of a table of addresses.
#[tactic(auto, unfolding(crate::specs::LightLines::address_entry_in))]
fn address_entry(line: &[u8]) -> Option<u64>
    ensures { result ≡ spec.address_entry_in line.now }
{
    let (_, rest) = octets(line)?;
    let (_, rest) = number(behind(b"/", rest)?, 32)?;
    let (value, rest) = number(behind(b" ", rest)?, u64::from(u32::MAX))?;
    if is_end(rest) { Some(value) } else { None }
}

/// The value of an entry of a table of numbers.
#[tactic(auto, unfolding(crate::specs::LightLines::number_entry_in))]
fn number_entry(line: &[u8]) -> Option<u64>
    ensures { result ≡ spec.number_entry_in line.now }
{
    let (_, rest) = number(line, u64::from(u32::MAX))?;
    let (value, rest) = number(behind(b" ", rest)?, u64::from(u32::MAX))?;
    if is_end(rest) { Some(value) } else { None }
}

/// Whether a line is one of those of which only the whole text counts.
#[tactic(auto, unfolding(crate::specs::LightLines::is_light))]
pub(crate) fn is_light(line: &[u8]) -> bool
    ensures { result ≡ spec.is_light line.now }
{
    (has_end(line) && (has_head(line) || has_rule_number(line)))
        || (address_entry(line).is_some() || number_entry(line).is_some())
}
