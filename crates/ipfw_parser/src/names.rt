ghost use Rattle.std.specs.Prelude.{◌≡◌, ◌<◌, ◌≤◌, length, drop, position, IfSome, IfOk};
ghost use Rattle.std.specs.Bool.{OnTrue};
ghost use Rattle.ipfw_parser.specs.Reading.{ReadsAs, same};
ghost use Rattle.ipfw_parser.specs.Views.{view};
ghost use Rattle.fw_rule.specs.Names.{unreach_names};
ghost use Rattle.ipfw_parser.specs.Names as spec;

use crate::numbers::{number, starts_with_digit};
use crate::{Kind, ParseFault, Word};
use fw_base::{Name, are_name_bytes};
use fw_rule::{ANY_FLOW, Iface, UNREACH_NAMES};
use std::alloc::Global;

/// The services that are known by name, and their ports (RFC 6335).
const SERVICE_NAMES: [&[u8]; 16] = [
    b"ftp", b"ssh", b"telnet", b"smtp", b"domain", b"bootps", b"bootpc", b"tftp", b"http", b"pop3",
    b"ntp", b"imap", b"snmp", b"https", b"imaps", b"pop3s",
];

const SERVICE_PORTS: [u16; 16] = [
    21, 22, 23, 25, 53, 67, 68, 69, 80, 110, 123, 143, 161, 443, 993, 995,
];

#[tactic(auto, unfolding(crate::specs::Names::is_name))]
fn is_name(text: &[u8], most: usize) -> bool
    ensures { result ≡ spec.is_name most text.now }
{
    are_name_bytes(text) && 1 <= text.len() && text.len() <= most
}

/// The name of a table: 1 to 63 letters, digits, `_`, `.` and `-`.
#[tactic(auto, unfolding(crate::specs::Names::table_name))]
pub fn table_name(alloc: Global, word: Word<'_>) -> Result<Name, ParseFault>
    ensures { ReadsAs (λ n. n) result (spec.table_name (view word.entry)) }
{
    if is_name(word.text, 63) {
        Ok(Name::new(alloc, word.text)?)
    } else {
        Err(word.fault(Kind::BadName))
    }
}

/// Whether the word stands for the name of a flow: it begins with a colon.
#[tactic(auto, unfolding(crate::specs::Names::starts_with_colon))]
pub(crate) fn starts_with_colon(text: &[u8]) -> bool
    ensures { result ≡ spec.starts_with_colon text.now }
{
    match text {
        [] => false,
        [first, ..] => *first == b':',
    }
}

/// The part of the word behind its first byte.
fn behind_colon(word: Word<'_>) -> Word<'_>
    ensures { view result
        ≡ record { column = word.entry.column; text = drop 1 word.entry.text.now } }
{
    let text = match word.text {
        [] => word.text,
        [_, name @ ..] => name,
    };
    Word {
        column: word.column,
        text,
    }
}

/// Whether the word, which begins with a colon, stands for every flow.
#[tactic(auto, unfolding(crate::specs::Names::is_any_flow))]
pub(crate) fn is_any_flow(word: Word<'_>) -> bool
    ensures { result ≡ spec.is_any_flow word.entry.text.now }
{
    behind_colon(word).is(ANY_FLOW)
}

/// The name of a flow behind its colon, by the rules of table names.
#[tactic(auto, unfolding(crate::specs::Names::named_flow, crate::specs::Names::table_name))]
pub(crate) fn named_flow(alloc: Global, word: Word<'_>) -> Result<Name, ParseFault>
    ensures { ReadsAs (λ n. n) result (spec.named_flow (view word.entry)) }
{
    table_name(alloc, behind_colon(word))
}

#[tactic(auto, unfolding(crate::specs::Names::ends_with_star))]
fn ends_with_star(text: &[u8]) -> bool
    ensures value { result ≡ spec.ends_with_star text.now }
    ensures some { OnTrue result (1 ≤ length text.now) }
{
    1 <= text.len() && text[text.len() - 1] == b'*'
}

/// Interfaces: `any`, the name of one, or the beginning of names and `*`. A name has 1 to 15 bytes.
#[tactic(auto, unfolding(crate::specs::Names::iface))]
pub(crate) fn iface(alloc: Global, word: Word<'_>) -> Result<Iface, ParseFault>
    ensures { ReadsAs (λ i. i) result (spec.iface (view word.entry)) }
{
    if word.is(b"any") {
        Ok(Iface::AnyIface)
    } else if ends_with_star(word.text) {
        let front = &word.text[..word.text.len() - 1];
        if is_name(front, 15) {
            Ok(Iface::Begins(Name::new(alloc, front)?))
        } else {
            Err(word.fault(Kind::BadName))
        }
    } else if is_name(word.text, 15) {
        Ok(Iface::Exact(Name::new(alloc, word.text)?))
    } else {
        Err(word.fault(Kind::BadName))
    }
}

/// Where the text stands in a table of words.
#[tactic(auto, unfolding(crate::specs::Reading::same))]
pub(crate) fn place(table: &[&[u8]], text: &[u8]) -> Option<usize>
    ensures place { result ≡ position (λ name. same text.now name.now) table.now }
    ensures within { IfSome result (λ k. k < length table.now) }
{
    table.iter().position(|name| text == *name)
}

/// The port of a service.
#[tactic(auto, unfolding(crate::specs::Names::service, crate::specs::Names::service_names, crate::specs::Names::service_ports, crate::specs::Names::place))]
pub(crate) fn service(text: &[u8]) -> Option<u16>
    ensures { result ≡ spec.service text.now }
{
    match place(&SERVICE_NAMES, text) {
        Some(place) => Some(SERVICE_PORTS[place]),
        None => None,
    }
}

#[tactic(auto, unfolding(crate::specs::Names::place, fw_rule::specs::Names::unreach_names))]
fn unreach_place(text: &[u8]) -> Option<usize>
    ensures place { result ≡ spec.place unreach_names text.now }
    ensures within { IfSome result (λ k. k < 16) }
{
    place(&UNREACH_NAMES, text)
}

/// A code of `unreach`: 0 to 255, or one of the names of 0 to 15.
#[tactic(auto, unfolding(crate::specs::Names::code, crate::specs::Names::word_in))]
pub(crate) fn code(word: Word<'_>) -> Result<u8, ParseFault>
    ensures { ReadsAs (λ n. n) result (spec.code (view word.entry)) }
{
    if starts_with_digit(word.text) {
        return Ok(number(word, 0, 255)? as u8);
    }
    match unreach_place(word.text) {
        Some(place) => Ok(place as u8),
        None => Err(word.fault(Kind::UnknownWord)),
    }
}
