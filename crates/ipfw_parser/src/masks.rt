ghost use Rattle.std.specs.Prelude.{◌≡◌, ◌<◌, ◌≤◌, IfSome, IfOk, map, length};
ghost use Rattle.ipfw_parser.specs.Reading.{ReadsAs};
ghost use Rattle.ipfw_parser.specs.Views.{view};
ghost use Rattle.ipfw_parser.specs.Names.{place};
ghost use Rattle.ipfw_parser.specs.SignViews.{signs_view};
ghost use Rattle.ipfw_parser.specs.Lists as spec;

use crate::cut::first_element;
use crate::names::place as place_in;
use crate::numbers::number;
use crate::{Kind, ParseFault, Word};
use fw_rule::TypeSet;

/// A list of ICMP types, 0 to 31, as the bits of a mask.
#[tactic(auto, unfolding(crate::specs::Lists::types))]
pub(crate) fn types(word: Word<'_>) -> Result<u32, ParseFault>
    ensures { ReadsAs (λ m. m) result (spec.types (view word.entry)) }
{
    let mut mask: u32 = 0;
    let mut rest = Some(word.text);
    while let Some(text) = rest {
        let (element, more) = first_element(text);
        let element = Word {
            column: word.column,
            text: element,
        };
        let kind = number(element, 0, 31)? as u32;
        mask |= 1 << kind;
        rest = more;
    }
    Ok(mask)
}

/// A list of ICMPv6 types, 0 to 255, as a set.
#[tactic(auto, unfolding(crate::specs::Lists::types6))]
pub(crate) fn types6(word: Word<'_>) -> Result<TypeSet, ParseFault>
    ensures { ReadsAs (λ s. s) result (spec.types6 (view word.entry)) }
{
    let mut set = TypeSet::empty();
    let mut rest = Some(word.text);
    while let Some(text) = rest {
        let (element, more) = first_element(text);
        let element = Word {
            column: word.column,
            text: element,
        };
        set = set.with(number(element, 0, 255)? as u8);
        rest = more;
    }
    Ok(set)
}

/// The bits of names as they are, and of names behind a `!`.
#[derive(Clone, Copy)]
pub(crate) struct Signs {
    pub set: u8,
    pub clear: u8,
}

#[tactic(auto, unfolding(crate::specs::Lists::is_negated))]
fn is_negated(text: &[u8]) -> bool
    ensures { result ≡ spec.is_negated text.now }
{
    match text {
        [] => false,
        [first, ..] => *first == b'!',
    }
}

#[tactic(auto, unfolding(crate::specs::Lists::bare_name, crate::specs::Lists::is_negated))]
fn bare_name(text: &[u8]) -> &[u8]
    ensures { result.now ≡ spec.bare_name text.now }
{
    match text {
        [b'!', name @ ..] => name,
        _ => text,
    }
}

fn with_sign(signs: Signs, negated: bool, bit: u32) -> Signs
    requires { bit < 8 }
    ensures { signs_view result ≡ spec.with_sign (signs_view signs) negated bit }
{
    if negated {
        Signs {
            set: signs.set,
            clear: signs.clear | 1 << bit,
        }
    } else {
        Signs {
            set: signs.set | 1 << bit,
            clear: signs.clear,
        }
    }
}

fn found_flag<'x>(names: &'x [&'x [u8]], word: Word<'x>) -> Result<usize, ParseFault>
    ensures value { ReadsAs (λ k. k) result
        (spec.found_flag word.entry.column
        (place (map (λ name. name.now) names.now) word.entry.text.now)) }
    ensures within { IfOk result (λ k. k < length names.now) }
{
    match place_in(names, word.text) {
        Some(place) => Ok(place),
        None => Err(word.fault(Kind::BadFlag)),
    }
}

/// A list of names of bits, each as it is or behind a `!`, and none both.
#[tactic(auto, unfolding(crate::specs::Lists::signs))]
pub(crate) fn signed_names<'x>(names: &'x [&'x [u8]], word: Word<'x>) -> Result<Signs, ParseFault>
    requires { length names.now ≤ 8 }
    ensures { ReadsAs signs_view result
        (spec.signs (map (λ name. name.now) names.now) (view word.entry)) }
{
    let mut found = Signs { set: 0, clear: 0 };
    let mut rest = Some(word.text);
    while let Some(text) = rest {
        let (element, more) = first_element(text);
        let name = Word {
            column: word.column,
            text: bare_name(element),
        };
        let place = found_flag(names, name)?;
        found = with_sign(found, is_negated(element), place as u32);
        rest = more;
    }
    if found.set & found.clear == 0 {
        Ok(found)
    } else {
        Err(word.fault(Kind::BadFlag))
    }
}
