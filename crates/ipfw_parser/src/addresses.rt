ghost use Rattle.std.specs.Prelude.{◌≡◌, ◌<◌, ◌≤◌, IfSome, IfOk, map, nat_eq, codes, length};
ghost use Rattle.std.specs.Bool.{OnTrue};
ghost use Rattle.std.specs.Option.{option_map, option_copied};
ghost use Rattle.std.specs.List.{starts_with};
ghost use Rattle.ipfw_parser.specs.Reading.{ReadsAs, NeedsNoMemory};
ghost use Rattle.ipfw_parser.specs.Views.{view, list_of};
ghost use Rattle.ipfw_parser.specs.Addresses as spec;

use crate::addresses6::{has_colon, prefix6};
use crate::cut::{cut, first_address, part_len};
use crate::negation::negation;
use crate::numbers::{MOST_DIGITS, decimal, number, up_to};
use crate::{Kind, ParseFault, Word, Words, table_name};
use fw_base::{Addr, Name, Prefix};
use fw_rule::{AddrItem, AddrSpec, Items};
use std::alloc::Global;

#[tactic(auto, unfolding(crate::specs::Addresses::octet_in))]
fn octet_in(text: &[u8]) -> Option<u8>
    ensures { result ≡ spec.octet_in text.now }
{
    match up_to(decimal(text, 3), 255) {
        Some(value) => Some(value as u8),
        None => None,
    }
}

#[tactic(auto, unfolding(crate::specs::Addresses::octet_and_dot))]
fn octet_and_dot(text: &[u8]) -> Option<(u8, &[u8])>
    ensures { option_map (λ r. (r.0, r.1.now)) result ≡ spec.octet_and_dot text.now }
{
    let (front, rest) = cut(text, b'.');
    match (octet_in(front), rest) {
        (Some(value), Some(rest)) => Some((value, rest)),
        _ => None,
    }
}

#[tactic(auto, unfolding(crate::specs::Addresses::address_in))]
fn address_in(text: &[u8]) -> Option<Addr>
    ensures { option_map (λ a. a.0) result ≡ spec.address_in text.now }
{
    let (first, rest) = octet_and_dot(text)?;
    let (second, rest) = octet_and_dot(rest)?;
    let (third, rest) = octet_and_dot(rest)?;
    let fourth = octet_in(rest)?;
    Some(Addr(u32::from_be_bytes([first, second, third, fourth])))
}

/// An address: four numbers of one to three digits, 0 to 255, with dots between them.
#[tactic(auto, unfolding(crate::specs::Addresses::address))]
pub fn address(word: Word<'_>) -> Result<Addr, ParseFault>
    ensures value { ReadsAs (λ a. a.0) result (spec.address (view word.entry)) }
    ensures memory { NeedsNoMemory result }
{
    match address_in(word.text) {
        Some(address) => Ok(address),
        None => Err(word.fault(Kind::BadAddress)),
    }
}

fn prefix_length<'a>(word: Word<'a>, text: Option<&'a [u8]>) -> Result<u8, ParseFault>
    ensures value { ReadsAs (λ n. n) result
        (spec.prefix_length word.entry.column (option_copied text.entry)) }
    ensures within { IfOk result (λ n. n ≤ 32) }
    ensures memory { NeedsNoMemory result }
{
    match text {
        None => Ok(32),
        Some(text) => match up_to(decimal(text, MOST_DIGITS), 32) {
            Some(bits) => Ok(bits as u8),
            None => Err(word.fault(Kind::BadPrefix)),
        },
    }
}

/// An address with a length from 0 to 32 behind a `/`, or without one, which is a prefix of 32. Host
/// bits are cleared.
#[tactic(auto, unfolding(crate::specs::Addresses::prefix))]
pub fn prefix(word: Word<'_>) -> Result<Prefix, ParseFault>
    ensures value { ReadsAs (λ p. p) result (spec.prefix (view word.entry)) }
    ensures memory { NeedsNoMemory result }
{
    let (front, rest) = cut(word.text, b'/');
    let address = address(Word {
        column: word.column,
        text: front,
    })?;
    let bits = prefix_length(word, rest)?;
    Ok(Prefix::new(address, bits).unwrap())
}

#[tactic(auto, unfolding(crate::specs::Addresses::closes))]
fn closes(text: &[u8]) -> bool
    ensures { result ≡ spec.closes text.now }
{
    Word { column: 0, text }.is(b")")
}

#[tactic(auto, unfolding(crate::specs::Addresses::table_value))]
fn table_value(name: Name, word: Word<'_>) -> Result<AddrItem, ParseFault>
    ensures { ReadsAs (λ i. i) result (spec.table_value name (view word.entry)) }
{
    let end = part_len(word.text);
    let digits = Word {
        column: word.column,
        text: &word.text[..end],
    };
    let value = number(digits, 0, 4_294_967_295)?;
    if closes(&word.text[end..]) {
        Ok(AddrItem::TableValue(name, value as u32))
    } else {
        Err(word.fault(Kind::BadAddress))
    }
}

#[tactic(auto, unfolding(crate::specs::Addresses::table_end, crate::specs::Addresses::starts_with_comma))]
fn table_end(name: Name, word: Word<'_>) -> Result<AddrItem, ParseFault>
    ensures { ReadsAs (λ i. i) result (spec.table_end name (view word.entry)) }
{
    if closes(word.text) {
        return Ok(AddrItem::InTable(name));
    }
    match word.text {
        [b',', text @ ..] => table_value(
            name,
            Word {
                column: word.column,
                text,
            },
        ),
        _ => Err(word.fault(Kind::BadAddress)),
    }
}

#[tactic(auto, unfolding(crate::specs::Addresses::table_item))]
fn table_item(alloc: Global, word: Word<'_>) -> Result<AddrItem, ParseFault>
    ensures { ReadsAs (λ i. i) result (spec.table_item (view word.entry)) }
{
    let end = part_len(word.text);
    let name = table_name(
        alloc,
        Word {
            column: word.column,
            text: &word.text[..end],
        },
    )?;
    table_end(
        name,
        Word {
            column: word.column,
            text: &word.text[end..],
        },
    )
}

/// What an element begins with that is a table's name.
const TABLE_START: &[u8] = b"table(";

fn table_start(text: &[u8]) -> bool
    ensures value { result ≡ starts_with nat_eq text.now (codes "table(") }
    ensures long { OnTrue result (6 ≤ length text.now) }
{
    text.starts_with(TABLE_START)
}

#[tactic(auto, unfolding(crate::specs::Addresses::item))]
fn item(alloc: Global, word: Word<'_>) -> Result<AddrItem, ParseFault>
    ensures { ReadsAs (λ i. i) result (spec.item (view word.entry)) }
{
    if word.is(b"any") {
        Ok(AddrItem::Any)
    } else if word.is(b"me") {
        Ok(AddrItem::Me)
    } else if table_start(word.text) {
        let text = &word.text[TABLE_START.len()..];
        table_item(
            alloc,
            Word {
                column: word.column,
                text,
            },
        )
    } else if has_colon(word.text) {
        Ok(AddrItem::Net6(prefix6(word)?))
    } else {
        Ok(AddrItem::Net(prefix(word)?))
    }
}

#[tactic(auto, unfolding(crate::specs::Addresses::items))]
fn items(alloc: Global, word: Word<'_>) -> Result<Items<AddrItem>, ParseFault>
    ensures { ReadsAs (λ i. i) result (spec.items (view word.entry)) }
{
    let mut found = Vec::new(alloc);
    let mut rest = Some(word.text);
    while let Some(text) = rest {
        let (element, more) = first_address(text);
        let element = Word {
            column: word.column,
            text: element,
        };
        found.push(item(alloc, element)?)?;
        rest = more;
    }
    Ok(Items::from_vec(found))
}

/// A list of addresses in one word, `not` before it or not.
#[tactic(auto, unfolding(crate::specs::Addresses::addr_spec))]
pub(crate) fn addr_spec(
    alloc: Global,
    end: u32,
    words: Words<'_>,
) -> Result<(AddrSpec, Words<'_>), ParseFault>
    ensures { ReadsAs (λ r. (r.0, list_of r.1)) result (spec.addr_spec end (list_of words.entry)) }
{
    let (negated, words) = negation(end, words)?;
    let (list, words) = words.first(end)?;
    let items = items(alloc, list)?;
    Ok((AddrSpec { negated, items }, words))
}
