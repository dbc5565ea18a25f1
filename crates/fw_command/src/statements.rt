ghost use Rattle.std.specs.Prelude.{◌≡◌, ◌≤◌, length, map};
ghost use Rattle.fw_lex.specs.Words as lex;
ghost use Rattle.ipfw_parser.specs.Reading.{ReadsAs, word_at};
ghost use Rattle.ipfw_parser.specs.Views.{view, list_of};
ghost use Rattle.fw_command.specs.Statements as spec;

use crate::commands::command;
use crate::ends::{finished, first_number};
use crate::statement::Statement;
use fw_base::MOST_RECORDS_OF_ALL;
use fw_lex::{LexFault, Token, tokens};
use fw_rule::Command;
use ipfw_parser::{Kind, ParseFault, Word, Words, line_end, parse_rule, words_of};
use std::alloc::Global;

#[tactic(auto, unfolding(crate::specs::Statements::live_statement))]
fn live_statement<'a>(live: bool, word: Word<'a>, words: Words<'a>) -> Result<Statement, ParseFault>
    ensures { ReadsAs (λ s. s) result (spec.live_statement live (view word.entry) (list_of words.entry)) }
{
    if live {
        Err(word.fault(Kind::Misplaced))
    } else {
        finished(Statement::Live, words)
    }
}

#[tactic(auto, unfolding(crate::specs::Statements::after_count))]
fn after_count(column: u32, end: u32, words: Words<'_>) -> Result<Statement, ParseFault>
    ensures { ReadsAs (λ s. s) result (spec.after_count column end (list_of words.entry)) }
{
    let (count, words) = first_number(0, MOST_RECORDS_OF_ALL as u64, end, words)?;
    finished(Statement::After { column, count }, words)
}

#[tactic(auto, unfolding(crate::specs::Statements::after_statement))]
fn after_statement<'a>(
    live: bool,
    end: u32,
    word: Word<'a>,
    words: Words<'a>,
) -> Result<Statement, ParseFault>
    ensures { ReadsAs (λ s. s) result
        (spec.after_statement live end (view word.entry) (list_of words.entry)) }
{
    if live {
        after_count(word.column, end, words)
    } else {
        Err(word.fault(Kind::Misplaced))
    }
}

/// What a line says that begins with the word, which isn't `add`.
#[tactic(auto, unfolding(crate::specs::Statements::statement))]
fn statement<'a>(
    alloc: Global,
    live: bool,
    end: u32,
    word: Word<'a>,
    words: Words<'a>,
) -> Result<Statement, ParseFault>
    ensures { ReadsAs (λ s. s) result
        (spec.statement live end (view word.entry) (list_of words.entry)) }
{
    if word.is(b"live") {
        live_statement(live, word, words)
    } else if word.is(b"after") {
        after_statement(live, end, word, words)
    } else {
        Ok(Statement::Order(command(alloc, end, word, words)?))
    }
}

#[tactic(auto, unfolding(crate::specs::Statements::addition))]
fn addition(alloc: Global, line: &[u8], tokens: &[Token]) -> Result<Statement, ParseFault>
    requires short { length line.now ≤ 1048576 }
    requires tokens { tokens.now ≡ lex.tokens_of line.now }
    requires some { 1 ≤ length tokens.now }
    ensures { ReadsAs (λ s. s) result (spec.addition line.now) }
{
    Ok(Statement::Order(Command::Add(parse_rule(alloc, line, tokens, 1)?)))
}

#[tactic(auto, unfolding(crate::specs::Statements::words_say))]
fn words_say(
    alloc: Global,
    live: bool,
    line: &[u8],
    tokens: &[Token],
) -> Result<Statement, ParseFault>
    requires short { length line.now ≤ 1048576 }
    requires tokens { tokens.now ≡ lex.tokens_of line.now }
    ensures { ReadsAs (λ s. s) result
        (spec.words_say live line.now (map (word_at line.now) (lex.tokens_of line.now))) }
{
    let words = words_of(line, tokens);
    match words.next() {
        None => Ok(Statement::Nothing),
        Some((word, _rest)) if word.is(b"add") => addition(alloc, line, tokens),
        Some((word, rest)) => statement(alloc, live, line_end(words), word, rest),
    }
}

/// What a line says, or its first fault; `live` tells whether `live` stands on an earlier line.
#[tactic(auto, unfolding(crate::specs::Statements::says))]
pub(crate) fn says(alloc: Global, live: bool, line: &[u8]) -> Result<Statement, ParseFault>
    requires { length line.now ≤ 1048576 }
    ensures { ReadsAs (λ s. s) result (spec.says live line.now) }
{
    match tokens(alloc, line) {
        Ok(tokens) => words_say(alloc, live, line, &tokens),
        Err(LexFault::BadByte { column, .. }) => Err(ParseFault::At {
            column,
            kind: Kind::BadByte,
        }),
        Err(LexFault::OutOfMemory) => Err(ParseFault::OutOfMemory),
    }
}
