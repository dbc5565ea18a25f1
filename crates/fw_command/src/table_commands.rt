ghost use Rattle.std.specs.Prelude.{◌≡◌, ◌==◌};
ghost use Rattle.std.specs.List.{list_any};
ghost use Rattle.ipfw_parser.specs.Reading.{ReadsAs};
ghost use Rattle.ipfw_parser.specs.Views.{view, list_of};
ghost use Rattle.fw_command.specs.TableCommands as spec;

use crate::ends::finished;
use fw_rule::{Command, Key, TableCommand, TableType};
use ipfw_parser::{Kind, ParseFault, Word, Words, has_colon, number, prefix, table_name};
use std::alloc::Global;

#[tactic(auto, unfolding(crate::specs::TableCommands::has_dot))]
fn has_dot(text: &[u8]) -> bool
    ensures { result ≡ spec.has_dot text.now }
{
    text.iter().any(|byte| *byte == b'.')
}

/// A key: a prefix or an address where the word has a dot, else a number. Keys are IPv4: a word with a dot
/// and a colon is no address.
#[tactic(auto, unfolding(crate::specs::TableCommands::key))]
fn key(word: Word<'_>) -> Result<Key, ParseFault>
    ensures { ReadsAs (λ k. k) result (spec.key (view word.entry)) }
{
    if has_dot(word.text) && has_colon(word.text) {
        Err(word.fault(Kind::BadAddress))
    } else if has_dot(word.text) {
        Ok(Key::Net(prefix(word)?))
    } else {
        Ok(Key::Number(number(word, 0, 4_294_967_295)? as u32))
    }
}

#[tactic(auto, unfolding(crate::specs::TableCommands::table_type))]
fn table_type(word: Word<'_>) -> Result<TableType, ParseFault>
    ensures { ReadsAs (λ t. t) result (spec.table_type (view word.entry)) }
{
    if word.is(b"addr") {
        Ok(TableType::Addresses)
    } else if word.is(b"number") {
        Ok(TableType::Numbers)
    } else {
        Err(word.fault(Kind::UnknownWord))
    }
}

#[tactic(auto, unfolding(crate::specs::TableCommands::type_behind))]
fn type_behind(end: u32, words: Words<'_>) -> Result<(TableCommand, Words<'_>), ParseFault>
    ensures { ReadsAs (λ r. (r.0, list_of r.1)) result (spec.type_behind end (list_of words.entry)) }
{
    let (next, words) = words.first(end)?;
    Ok((TableCommand::Create(table_type(next)?), words))
}

#[tactic(auto, unfolding(crate::specs::TableCommands::create))]
fn create(end: u32, words: Words<'_>) -> Result<(TableCommand, Words<'_>), ParseFault>
    ensures { ReadsAs (λ r. (r.0, list_of r.1)) result (spec.create end (list_of words.entry)) }
{
    match words.next() {
        Some((word, rest)) if word.is(b"type") => type_behind(end, rest),
        _ => Ok((TableCommand::Create(TableType::Addresses), words)),
    }
}

/// The value behind a key, 0 where none is given.
#[tactic(auto, unfolding(crate::specs::TableCommands::value))]
fn value(words: Words<'_>) -> Result<(u32, Words<'_>), ParseFault>
    ensures { ReadsAs (λ r. (r.0, list_of r.1)) result (spec.value (list_of words.entry)) }
{
    match words.next() {
        None => Ok((0, words)),
        Some((word, rest)) => Ok((number(word, 0, 4_294_967_295)? as u32, rest)),
    }
}

#[tactic(auto, unfolding(crate::specs::TableCommands::add_entry_command))]
fn add_entry_command(end: u32, words: Words<'_>) -> Result<(TableCommand, Words<'_>), ParseFault>
    ensures { ReadsAs (λ r. (r.0, list_of r.1)) result (spec.add_entry_command end (list_of words.entry)) }
{
    let (next, words) = words.first(end)?;
    let key = key(next)?;
    let (value, words) = value(words)?;
    Ok((TableCommand::Add(key, value), words))
}

#[tactic(auto, unfolding(crate::specs::TableCommands::remove_entry))]
fn remove_entry(end: u32, words: Words<'_>) -> Result<(TableCommand, Words<'_>), ParseFault>
    ensures { ReadsAs (λ r. (r.0, list_of r.1)) result (spec.remove_entry end (list_of words.entry)) }
{
    let (next, words) = words.first(end)?;
    Ok((TableCommand::Remove(key(next)?), words))
}

#[tactic(auto, unfolding(crate::specs::TableCommands::swap_with))]
fn swap_with(
    alloc: Global,
    end: u32,
    words: Words<'_>,
) -> Result<(TableCommand, Words<'_>), ParseFault>
    ensures { ReadsAs (λ r. (r.0, list_of r.1)) result (spec.swap_with end (list_of words.entry)) }
{
    let (next, words) = words.first(end)?;
    Ok((TableCommand::SwapWith(table_name(alloc, next)?), words))
}

#[tactic(auto, unfolding(crate::specs::TableCommands::table_command))]
fn table_command(
    alloc: Global,
    end: u32,
    words: Words<'_>,
) -> Result<(TableCommand, Words<'_>), ParseFault>
    ensures { ReadsAs (λ r. (r.0, list_of r.1)) result
        (spec.table_command end (list_of words.entry)) }
{
    let (next, words) = words.first(end)?;
    if next.is(b"create") {
        create(end, words)
    } else if next.is(b"destroy") {
        Ok((TableCommand::Destroy, words))
    } else if next.is(b"flush") {
        Ok((TableCommand::Clear, words))
    } else if next.is(b"list") {
        Ok((TableCommand::ListEntries, words))
    } else if next.is(b"add") {
        add_entry_command(end, words)
    } else if next.is(b"delete") {
        remove_entry(end, words)
    } else if next.is(b"swap") {
        swap_with(alloc, end, words)
    } else {
        Err(next.fault(Kind::UnknownWord))
    }
}

/// A command on a table, by the words behind `table`.
#[tactic(auto, unfolding(crate::specs::TableCommands::table))]
pub(crate) fn table(alloc: Global, end: u32, words: Words<'_>) -> Result<Command, ParseFault>
    ensures { ReadsAs (λ c. c) result (spec.table end (list_of words.entry)) }
{
    let (next, words) = words.first(end)?;
    let name = table_name(alloc, next)?;
    let (made, words) = table_command(alloc, end, words)?;
    finished(Command::Table(name, made), words)
}
