ghost use Rattle.ipfw_parser.specs.Reading.{ReadsAs};
ghost use Rattle.ipfw_parser.specs.Views.{view, list_of};
ghost use Rattle.fw_command.specs.Commands as spec;

use crate::ends::{addresses, finished, numbers};
use crate::set_commands::set_command;
use crate::setting_commands::sysctl;
use crate::table_commands::table;
use fw_rule::Command;
use ipfw_parser::{Kind, ParseFault, Word, Words, set_behind};
use std::alloc::Global;

#[tactic(auto, unfolding(crate::specs::Commands::delete_set_command))]
fn delete_set_command(end: u32, words: Words<'_>) -> Result<Command, ParseFault>
    ensures { ReadsAs (λ c. c) result (spec.delete_set_command end (list_of words.entry)) }
{
    let (set, words) = set_behind(end, words)?;
    finished(Command::DeleteSet(set), words)
}

#[tactic(auto, unfolding(crate::specs::Commands::delete))]
fn delete(alloc: Global, end: u32, words: Words<'_>) -> Result<Command, ParseFault>
    ensures { ReadsAs (λ c. c) result (spec.delete end (list_of words.entry)) }
{
    let (next, rest) = words.first(end)?;
    if next.is(b"set") {
        delete_set_command(end, rest)
    } else {
        Ok(Command::Delete(numbers(alloc, words)?))
    }
}

#[tactic(auto, unfolding(crate::specs::Commands::zero_command))]
fn zero_command(alloc: Global, words: Words<'_>) -> Result<Command, ParseFault>
    ensures { ReadsAs (λ c. c) result (spec.zero_command (list_of words.entry)) }
{
    Ok(Command::Zero(numbers(alloc, words)?))
}

#[tactic(auto, unfolding(crate::specs::Commands::local))]
fn local(alloc: Global, end: u32, words: Words<'_>) -> Result<Command, ParseFault>
    ensures { ReadsAs (λ c. c) result (spec.local end (list_of words.entry)) }
{
    let (_first, _rest) = words.first(end)?;
    Ok(Command::Local(addresses(alloc, words)?))
}

/// A command other than `add`, which begins with the word.
#[tactic(auto, unfolding(crate::specs::Commands::command))]
pub(crate) fn command<'a>(
    alloc: Global,
    end: u32,
    word: Word<'a>,
    words: Words<'a>,
) -> Result<Command, ParseFault>
    ensures { ReadsAs (λ c. c) result (spec.command end (view word.entry) (list_of words.entry)) }
{
    if word.is(b"delete") {
        delete(alloc, end, words)
    } else if word.is(b"flush") {
        finished(Command::Flush, words)
    } else if word.is(b"zero") {
        zero_command(alloc, words)
    } else if word.is(b"list") {
        finished(Command::ListRules, words)
    } else if word.is(b"set") {
        set_command(end, words)
    } else if word.is(b"table") {
        table(alloc, end, words)
    } else if word.is(b"sysctl") {
        sysctl(end, words)
    } else if word.is(b"local") {
        local(alloc, end, words)
    } else {
        Err(word.fault(Kind::UnknownWord))
    }
}
