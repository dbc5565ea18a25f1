ghost use Rattle.std.specs.Prelude.{◌≡◌, ◌≤◌, ◌^◌, ◌<◌, IfOk};
ghost use Rattle.ipfw_parser.specs.Reading.{ReadsAs};
ghost use Rattle.ipfw_parser.specs.Views.{view, list_of};
ghost use Rattle.ipfw_parser.specs.Numbers as parser_numbers;
ghost use Rattle.fw_command.specs.Ends as spec;
ghost use Rattle.fw_command.specs.Commands as spec_commands;

use fw_base::Addr;
use fw_rule::Items;
use ipfw_parser::{Kind, ParseFault, Word, Words, address, number};
use std::alloc::Global;

/// The value, where no word stands behind it.
#[tactic(auto, unfolding(crate::specs::Ends::result_at_end))]
pub(crate) fn finished<T: Drop>(value: T, words: Words<'_>) -> Result<T, ParseFault>
    ensures { ReadsAs (λ v. v) result (spec.result_at_end value (list_of words.entry)) }
{
    match words.next() {
        Some((word, _rest)) => Err(word.fault(Kind::ExtraWord)),
        None => Ok(value),
    }
}

/// A number from `least` to `most`, and the words behind it.
#[tactic(auto, unfolding(crate::specs::Ends::first_number))]
pub(crate) fn first_number(
    least: u64,
    most: u64,
    end: u32,
    words: Words<'_>,
) -> Result<(u64, Words<'_>), ParseFault>
    ensures value { ReadsAs (λ r. (r.0, list_of r.1)) result
        (spec.first_number least most end (list_of words.entry)) }
    ensures within { IfOk result (λ r. r.0 ≤ most) }
{
    let (next, words) = words.first(end)?;
    Ok((number(next, least, most)?, words))
}

fn rule_number(word: Word<'_>) -> Result<u16, ParseFault>
    ensures { ReadsAs (λ n. n) result (parser_numbers.number 1 65535 (view word.entry)) }
{
    Ok(number(word, 1, 65535)? as u16)
}

/// Numbers of rules, 1 to 65535, up to the line's end.
pub(crate) fn numbers(alloc: Global, words: Words<'_>) -> Result<Items<u16>, ParseFault>
    ensures { ReadsAs (λ i. i) result (spec_commands.numbers (list_of words.entry)) }
{
    let mut found = Vec::new(alloc);
    let mut rest = words;
    while let Some((word, behind)) = rest.next() {
        found.push(rule_number(word)?)?;
        rest = behind;
    }
    Ok(Items::from_vec(found))
}

#[tactic(auto, unfolding(crate::specs::Commands::local_address))]
fn plain_address(word: Word<'_>) -> Result<Addr, ParseFault>
    ensures { ReadsAs (λ a. a) result (spec_commands.local_address (view word.entry)) }
{
    address(word)
}

/// Addresses up to the line's end.
pub(crate) fn addresses(alloc: Global, words: Words<'_>) -> Result<Items<Addr>, ParseFault>
    ensures { ReadsAs (λ i. i) result (spec_commands.addresses (list_of words.entry)) }
{
    let mut found = Vec::new(alloc);
    let mut rest = words;
    while let Some((word, behind)) = rest.next() {
        found.push(plain_address(word)?)?;
        rest = behind;
    }
    Ok(Items::from_vec(found))
}
