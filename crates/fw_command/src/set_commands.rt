ghost use Rattle.std.specs.Prelude.{◌≡◌, ◌≤◌, ◌^◌, ◌<◌, IfOk, false, true};
ghost use Rattle.ipfw_parser.specs.Reading.{ReadsAs};
ghost use Rattle.ipfw_parser.specs.Views.{view, list_of};
ghost use Rattle.fw_command.specs.SetCommands as spec;

use crate::ends::{finished, first_number};
use fw_rule::Command;
use ipfw_parser::{Kind, ParseFault, Word, Words, expected, set_behind, set_number};

/// A set as the bit of a mask.
#[tactic(auto, unfolding(crate::specs::SetCommands::set_bit))]
fn set_bit(word: Word<'_>) -> Result<u32, ParseFault>
    ensures { ReadsAs (λ b. b) result (spec.set_bit (view word.entry)) }
{
    let set = set_number(word)?;
    Ok(1 << set)
}

/// Whether the word ends a list of sets behind which `enable` may follow.
#[tactic(auto, unfolding(crate::specs::SetCommands::ends_sets))]
fn ends_sets(to_enable: bool, word: Word<'_>) -> bool
    ensures { result ≡ spec.ends_sets to_enable word.entry.text.now }
{
    to_enable && word.is(b"enable")
}

/// Sets up to the line's end, or up to `enable` where it may follow, as bits beside those before.
fn more_sets(to_enable: bool, before: u32, words: Words<'_>) -> Result<(u32, Words<'_>), ParseFault>
    ensures { ReadsAs (λ r. (r.0, list_of r.1)) result
        (spec.more_sets to_enable before (list_of words.entry)) }
{
    let mut mask = before;
    let mut rest = words;
    while let Some((word, behind)) = rest.next() {
        if ends_sets(to_enable, word) {
            return Ok((mask, rest));
        }
        mask |= set_bit(word)?;
        rest = behind;
    }
    Ok((mask, rest))
}

/// The same, with one set at least.
#[tactic(auto, unfolding(crate::specs::SetCommands::sets))]
fn sets(to_enable: bool, end: u32, words: Words<'_>) -> Result<(u32, Words<'_>), ParseFault>
    ensures { ReadsAs (λ r. (r.0, list_of r.1)) result
        (spec.sets to_enable end (list_of words.entry)) }
{
    let (next, words) = words.first(end)?;
    let bit = set_bit(next)?;
    more_sets(to_enable, bit, words)
}

#[tactic(auto, unfolding(crate::specs::SetCommands::enable))]
fn enable(disabled: u32, end: u32, words: Words<'_>) -> Result<Command, ParseFault>
    ensures { ReadsAs (λ c. c) result (spec.enable disabled end (list_of words.entry)) }
{
    let (enabled, _words) = sets(false, end, words)?;
    Ok(Command::SetMask {
        disable: disabled,
        enable: enabled,
    })
}

#[tactic(auto, unfolding(crate::specs::SetCommands::disable_end))]
fn disable_end(disabled: u32, end: u32, words: Words<'_>) -> Result<Command, ParseFault>
    ensures { ReadsAs (λ c. c) result (spec.disable_end disabled end (list_of words.entry)) }
{
    match words.next() {
        None => Ok(Command::SetMask {
            disable: disabled,
            enable: 0,
        }),
        Some((_enable, words)) => enable(disabled, end, words),
    }
}

#[tactic(auto, unfolding(crate::specs::SetCommands::disable))]
fn disable(end: u32, words: Words<'_>) -> Result<Command, ParseFault>
    ensures { ReadsAs (λ c. c) result (spec.disable end (list_of words.entry)) }
{
    let (disabled, words) = sets(true, end, words)?;
    disable_end(disabled, end, words)
}

#[tactic(auto, unfolding(crate::specs::SetCommands::move_rule_command))]
fn move_rule_command(end: u32, words: Words<'_>) -> Result<Command, ParseFault>
    ensures { ReadsAs (λ c. c) result (spec.move_rule_command end (list_of words.entry)) }
{
    let (number, words) = first_number(1, 65535, end, words)?;
    let words = expected(b"to", end, words)?;
    let (to, words) = set_behind(end, words)?;
    let number = number as u16;
    finished(Command::MoveRule { number, to }, words)
}

#[tactic(auto, unfolding(crate::specs::SetCommands::move_set_command))]
fn move_set_command(end: u32, words: Words<'_>) -> Result<Command, ParseFault>
    ensures { ReadsAs (λ c. c) result (spec.move_set_command end (list_of words.entry)) }
{
    let (from, words) = set_behind(end, words)?;
    let words = expected(b"to", end, words)?;
    let (to, words) = set_behind(end, words)?;
    finished(Command::MoveSet { from, to }, words)
}

#[tactic(auto, unfolding(crate::specs::SetCommands::move_words))]
fn move_words(end: u32, words: Words<'_>) -> Result<Command, ParseFault>
    ensures { ReadsAs (λ c. c) result (spec.move_words end (list_of words.entry)) }
{
    let (next, rest) = words.first(end)?;
    if next.is(b"rule") {
        move_rule_command(end, rest)
    } else {
        move_set_command(end, words)
    }
}

#[tactic(auto, unfolding(crate::specs::SetCommands::swap_sets_command))]
fn swap_sets_command(end: u32, words: Words<'_>) -> Result<Command, ParseFault>
    ensures { ReadsAs (λ c. c) result (spec.swap_sets_command end (list_of words.entry)) }
{
    let (first, words) = set_behind(end, words)?;
    let (second, words) = set_behind(end, words)?;
    finished(Command::SwapSets { first, second }, words)
}

/// A command on sets, by the words behind `set`.
#[tactic(auto, unfolding(crate::specs::SetCommands::set_command))]
pub(crate) fn set_command(end: u32, words: Words<'_>) -> Result<Command, ParseFault>
    ensures { ReadsAs (λ c. c) result (spec.set_command end (list_of words.entry)) }
{
    let (next, words) = words.first(end)?;
    if next.is(b"disable") {
        disable(end, words)
    } else if next.is(b"enable") {
        enable(0, end, words)
    } else if next.is(b"move") {
        move_words(end, words)
    } else if next.is(b"swap") {
        swap_sets_command(end, words)
    } else {
        Err(next.fault(Kind::UnknownWord))
    }
}
