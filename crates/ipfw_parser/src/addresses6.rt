ghost use Rattle.std.specs.Prelude.{◌≡◌, ◌<◌, ◌≤◌, ◌+◌, ◌-◌, ◌*◌, ◌^◌, IfSome, IfOk, true, nat_eq, codes, length};
ghost use Rattle.std.specs.Bool.{OnTrue};
ghost use Rattle.std.specs.List.{starts_with};
ghost use Rattle.std.specs.Option.{option_map, option_copied};
ghost use Rattle.ipfw_parser.specs.Reading.{ReadsAs, NeedsNoMemory};
ghost use Rattle.ipfw_parser.specs.Views.{view};
ghost use Rattle.ipfw_parser.specs.SideViews.{side_of, whole_value, filled_value, address6_value};
ghost use Rattle.ipfw_parser.specs.Addresses6 as spec;

use crate::cut::{cut, first_group};
use crate::numbers::{MOST_DIGITS, decimal, up_to};
use crate::{Kind, ParseFault, Word};
use fw_base::{Addr6, Prefix6};

/// How many groups of sixteen bits an address has (RFC 4291 section 2.2).
const GROUPS: u8 = 8;

fn is_hex(byte: u8) -> bool
    ensures { result ≡ spec.is_hex byte }
{
    (b'0' <= byte && byte <= b'9')
        || (b'A' <= byte && byte <= b'F')
        || (b'a' <= byte && byte <= b'f')
}

/// What the hexadecimal digit counts, 0 to 15.
fn hex_value(byte: u8) -> u8
    requires { spec.is_hex byte ≡ true }
    ensures value { result ≡ spec.hex_value byte }
    ensures small { result < 16 }
{
    if byte <= b'9' {
        byte - b'0'
    } else if byte <= b'F' {
        byte - b'A' + 10
    } else {
        byte - b'a' + 10
    }
}

/// The number that the hexadecimal digits write, where there are only those.
fn hex_number(text: &[u8]) -> Option<u16>
    requires { length text.now ≤ 4 }
    ensures { result ≡ spec.hex_number text.now }
{
    let mut value: u16 = 0;
    for byte in text {
        if !is_hex(*byte) {
            return None;
        }
        value = 16 * value + u16::from(hex_value(*byte));
    }
    Some(value)
}

/// A group: one to four hexadecimal digits.
#[tactic(auto, unfolding(crate::specs::Addresses6::group))]
fn group(text: &[u8]) -> Option<u16>
    ensures { result ≡ spec.group text.now }
{
    if 1 <= text.len() && text.len() <= 4 {
        hex_number(text)
    } else {
        None
    }
}

/// Groups on one side of a `::`: the number that they make, and how many they are.
#[derive(Clone, Copy)]
pub(crate) struct Side {
    pub value: u128,
    pub count: u8,
}

/// The side with one group more.
fn with_group(side: Side, group: u16) -> Side
    requires few { side.count < 8 }
    requires small { side.value < 2 ^ (16 * side.count) }
    ensures value { result.value ≡ 65536 * side.value + group }
    ensures count { result.count ≡ side.count + 1 }
    ensures room { result.value < 2 ^ (16 * result.count) }
{
    Side {
        value: 65536 * side.value + u128::from(group),
        count: side.count + 1,
    }
}

/// Groups with single colons between them, at least one and at most eight.
fn groups(text: &[u8]) -> Option<Side>
    ensures value { result ≡ side_of (spec.each_group (spec.colon_parts text.now)) }
    ensures room { IfSome result (λ s. s.value < 2 ^ (16 * s.count)) }
{
    let mut found = Side { value: 0, count: 0 };
    let mut rest = Some(text);
    while let Some(text) = rest {
        let (part, more) = first_group(text);
        if found.count == GROUPS {
            return None;
        }
        let Some(one) = group(part) else {
            return None;
        };
        found = with_group(found, one);
        rest = more;
    }
    Some(found)
}

/// The groups on one side of a `::`, at most eight.
#[tactic(auto, unfolding(crate::specs::Addresses6::side, crate::specs::SideViews::side_of))]
fn read_side(text: &[u8]) -> Option<Side>
    ensures value { result ≡ side_of (spec.side text.now) }
    ensures room { IfSome result (λ s. s.value < 2 ^ (16 * s.count)) }
{
    match text {
        [] => Some(Side { value: 0, count: 0 }),
        [_, ..] => groups(text),
    }
}

fn starts_gap(text: &[u8]) -> bool
    ensures value { result ≡ starts_with nat_eq text.now (codes "::") }
    ensures long { OnTrue result (2 ≤ length text.now) }
{
    text.starts_with(b"::")
}

/// Where the first `::` begins.
fn gap_place(text: &[u8]) -> Option<usize>
    ensures place { result ≡ spec.gap_in text.now }
    ensures within { IfSome result (λ k. k + 2 ≤ length text.now) }
{
    for at in 0..text.len() {
        if starts_gap(&text[at..]) {
            return Some(at);
        }
    }
    None
}

#[tactic(auto, unfolding(crate::specs::SideViews::whole_value))]
fn whole(found: Side) -> Option<Addr6>
    ensures { option_map (λ a. a.0) result ≡ whole_value found }
{
    if found.count == GROUPS {
        Some(Addr6(found.value))
    } else {
        None
    }
}

/// The number of the groups, with zero groups behind them up to eight.
fn followed(front: Side) -> u128
    requires few { front.count ≤ 7 }
    requires small { front.value < 2 ^ (16 * front.count) }
    ensures { result ≡ front.value * 2 ^ (16 * (8 - front.count)) }
{
    if front.count == 0 {
        0
    } else {
        front.value << (16 * u32::from(GROUPS - front.count))
    }
}

#[tactic(auto, unfolding(crate::specs::SideViews::filled_value))]
fn filled(front: Side, back: Side) -> Option<Addr6>
    requires front { front.value < 2 ^ (16 * front.count) }
    requires back { back.value < 2 ^ (16 * back.count) }
    requires few { front.count ≤ 8 }
    requires few_back { back.count ≤ 8 }
    ensures { option_map (λ a. a.0) result ≡ filled_value front back }
{
    if front.count + back.count < GROUPS {
        Some(Addr6(followed(front) + back.value))
    } else {
        None
    }
}

/// The address that the sides of its first `::`, or the whole text without one, make.
#[tactic(auto, unfolding(crate::specs::SideViews::address6_value))]
fn by_sides(text: &[u8]) -> Option<Addr6>
    ensures { option_map (λ a. a.0) result ≡ address6_value text.now }
{
    let Some(at) = gap_place(text) else {
        return whole(read_side(text)?);
    };
    let front = read_side(&text[..at])?;
    let back = read_side(&text[at + 2..])?;
    filled(front, back)
}

fn address6_in(text: &[u8]) -> Option<Addr6>
    ensures { option_map (λ a. a.0) result ≡ spec.address6_in text.now }
{
    by_sides(text)
}

/// An IPv6 address: eight groups of one to four hexadecimal digits with colons between them, `::` once in
/// place of one zero group or more.
#[tactic(auto, unfolding(crate::specs::Addresses6::address6))]
fn address6(word: Word<'_>) -> Result<Addr6, ParseFault>
    ensures value { ReadsAs (λ a. a.0) result (spec.address6 (view word.entry)) }
    ensures memory { NeedsNoMemory result }
{
    match address6_in(word.text) {
        Some(address) => Ok(address),
        None => Err(word.fault(Kind::BadAddress)),
    }
}

fn prefix6_length<'a>(word: Word<'a>, text: Option<&'a [u8]>) -> Result<u8, ParseFault>
    ensures value { ReadsAs (λ n. n) result
        (spec.prefix6_length word.entry.column (option_copied text.entry)) }
    ensures within { IfOk result (λ n. n ≤ 128) }
    ensures memory { NeedsNoMemory result }
{
    match text {
        None => Ok(128),
        Some(text) => match up_to(decimal(text, MOST_DIGITS), 128) {
            Some(bits) => Ok(bits as u8),
            None => Err(word.fault(Kind::BadPrefix)),
        },
    }
}

/// An IPv6 address with a length from 0 to 128 behind a `/`, or without one, which is a prefix of 128. Host
/// bits are cleared.
#[tactic(auto, unfolding(crate::specs::Addresses6::prefix6))]
pub fn prefix6(word: Word<'_>) -> Result<Prefix6, ParseFault>
    ensures value { ReadsAs (λ p. p) result (spec.prefix6 (view word.entry)) }
    ensures memory { NeedsNoMemory result }
{
    let (front, rest) = cut(word.text, b'/');
    let address = address6(Word {
        column: word.column,
        text: front,
    })?;
    let bits = prefix6_length(word, rest)?;
    Ok(Prefix6::new(address, bits).unwrap())
}

/// Whether a colon stands in the text: an element of a list of addresses is then read as IPv6.
#[tactic(auto, unfolding(crate::specs::Addresses6::has_colon))]
pub fn has_colon(text: &[u8]) -> bool
    ensures { result ≡ spec.has_colon text.now }
{
    text.iter().any(|byte| *byte == b':')
}
