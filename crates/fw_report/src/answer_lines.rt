ghost use Rattle.std.specs.Prelude.{◌≡◌, ◌+◌, ◌≤◌, ◌++◌, IsSomeAnd, decimal, length, map};
ghost use Rattle.std.specs.Arc.{arc_value};
ghost use Rattle.std.specs.List.{flat_map};
ghost use Rattle.std.specs.Option.{option_copied, option_map};
ghost use Rattle.fw_base.specs.Texts.{WritesText};
ghost use Rattle.rule_text.specs.Canonical.{rule_text};
ghost use Rattle.lookup_tables.specs.Tables.{table_named};
ghost use Rattle.rule_edits.specs.Words.{word_of};
ghost use Rattle.report_texts.specs.AnswerText as text;

use crate::line::{LINE_BYTES, Line};
use fw_base::{Failed, Name, Prefix, Sink, write_text};
use fw_rule::Rule;
use generation_store::Edition;
use lookup_tables::Table;
use report_texts::{Answer, LineAnswer};
use rule_chain::Config;
use rule_edits::ApplyFault;
use rule_text::{write_address, write_rule};
use std::sync::Arc;

/// Writes which line of the script is answered, and by which edition.
#[tactic(auto, unfolding(report_texts::specs::AnswerText::origin))]
fn write_origin<K: Sink>(out: &mut K, line: u32, edition: u64) -> Result<(), Failed>
    ensures { WritesText (K.state out.old) (K.state out.new) (text.origin line edition) result }
{
    let mut origin = Line::new();
    origin.put_text(b"\n");
    origin.put_number(edition);
    origin.put_text(b" edition ");
    origin.put_number(u64::from(line));
    origin.put_text(b" line ");
    origin.write(out)
}

fn write_canonical<K: Sink>(out: &mut K, rule: &Rule) -> Result<(), Failed>
    ensures { WritesText (K.state out.old) (K.state out.new) (rule_text rule.now) result }
{
    write_rule(rule, out).map_err(|_| Failed)
}

/// Writes a rule's line.
#[tactic(auto, unfolding(report_texts::specs::AnswerText::rule_line))]
fn write_rule_line<K: Sink>(out: &mut K, rule: &Arc<Rule>) -> Result<(), Failed>
    ensures { WritesText (K.state out.old) (K.state out.new)
        (text.rule_line (arc_value rule.now)) result }
{
    write_canonical(out, rule)?;
    write_text(out, b"\n")
}

fn write_rule_lines<K: Sink>(out: &mut K, rules: &[Arc<Rule>]) -> Result<(), Failed>
    ensures { WritesText (K.state out.old) (K.state out.new)
        (flat_map (λ rule. text.rule_line (arc_value rule)) rules.now) result }
{
    for rule in rules {
        write_rule_line(out, rule)?;
    }
    Ok(())
}

/// Writes how many rules there are.
#[tactic(auto, unfolding(report_texts::specs::AnswerText::count_line))]
pub(crate) fn write_count<K: Sink>(out: &mut K, count: usize) -> Result<(), Failed>
    ensures { WritesText (K.state out.old) (K.state out.new) (text.count_line count) result }
{
    let mut line = Line::new();
    line.put_text(b"\n");
    line.put_number(count as u64);
    line.put_text(b"rules ");
    line.write(out)
}

/// Writes the rules of an edition.
#[tactic(auto, unfolding(report_texts::specs::AnswerText::rules_listing))]
fn write_rules<K: Sink>(out: &mut K, config: &Config, line: u32, edition: u64) -> Result<(), Failed>
    ensures { WritesText (K.state out.old) (K.state out.new)
        (text.rules_listing line edition config.now.rules) result }
{
    let rules = config.rules();
    write_text(out, b"list")?;
    write_origin(out, line, edition)?;
    write_count(out, rules.len())?;
    write_rule_lines(out, rules)
}

/// Writes a prefix's length and its value.
#[tactic(auto, unfolding(report_texts::specs::AnswerText::length_text))]
fn write_length<K: Sink>(out: &mut K, bits: u8, value: u32) -> Result<(), Failed>
    ensures { WritesText (K.state out.old) (K.state out.new) (text.length_text bits value) result }
{
    let mut line = Line::new();
    line.put_text(b"\n");
    line.put_number(u64::from(value));
    line.put_text(b" ");
    line.put_number(u64::from(bits));
    line.put_text(b"/");
    line.write(out)
}

/// Writes the line of a prefix and its value.
fn write_address_line<K: Sink>(out: &mut K, entry: &(Prefix, u32)) -> Result<(), Failed>
    ensures { WritesText (K.state out.old) (K.state out.new) (text.address_line entry.now) result }
{
    write_address(out, entry.0.address())?;
    write_length(out, entry.0.length(), entry.1)
}

/// Writes the line of a number and its value.
#[tactic(auto, unfolding(report_texts::specs::AnswerText::number_line))]
fn write_number_line<K: Sink>(out: &mut K, entry: &(u32, u32)) -> Result<(), Failed>
    ensures { WritesText (K.state out.old) (K.state out.new) (text.number_line entry.now) result }
{
    let mut line = Line::new();
    line.put_text(b"\n");
    line.put_number(u64::from(entry.1));
    line.put_text(b" ");
    line.put_number(u64::from(entry.0));
    line.write(out)
}

fn write_address_lines<K: Sink>(out: &mut K, entries: &[(Prefix, u32)]) -> Result<(), Failed>
    ensures { WritesText (K.state out.old) (K.state out.new)
        (flat_map text.address_line entries.now) result }
{
    for entry in entries {
        write_address_line(out, entry)?;
    }
    Ok(())
}

fn write_number_lines<K: Sink>(out: &mut K, entries: &[(u32, u32)]) -> Result<(), Failed>
    ensures { WritesText (K.state out.old) (K.state out.new)
        (flat_map text.number_line entries.now) result }
{
    for entry in entries {
        write_number_line(out, entry)?;
    }
    Ok(())
}

fn write_table_lines<K: Sink>(out: &mut K, table: &Table) -> Result<(), Failed>
    ensures { WritesText (K.state out.old) (K.state out.new) (text.table_lines table.now) result }
{
    match table {
        Table::Addresses(entries) => write_address_lines(out, entries.entries()),
        Table::Numbers(entries) => write_number_lines(out, entries.entries()),
    }
}

/// Writes the word of a type and how many entries there are.
fn write_size<K: Sink>(out: &mut K, word: &[u8], size: usize) -> Result<(), Failed>
    requires { length word.now ≤ 100 }
    ensures { WritesText (K.state out.old) (K.state out.new) (word.now ++ decimal size) result }
{
    let mut line = Line::new();
    line.put_number(size as u64);
    line.put_text(word);
    line.write(out)
}

/// Writes a table's type and how many entries it has.
#[tactic(auto, unfolding(report_texts::specs::AnswerText::table_size))]
fn write_table_size<K: Sink>(out: &mut K, table: &Table) -> Result<(), Failed>
    ensures { WritesText (K.state out.old) (K.state out.new) (text.table_size table.now) result }
{
    match table {
        Table::Addresses(entries) => write_size(out, b" addr ", entries.entries().len()),
        Table::Numbers(entries) => write_size(out, b" number ", entries.entries().len()),
    }
}

/// Writes the entries of a table.
#[tactic(auto, unfolding(report_texts::specs::AnswerText::table_listing))]
fn write_table<K: Sink>(
    out: &mut K,
    name: &Name,
    table: &Table,
    line: u32,
    edition: u64,
) -> Result<(), Failed>
    ensures { WritesText (K.state out.old) (K.state out.new)
        (text.table_listing line edition name.now table.now) result }
{
    write_text(out, b"table ")?;
    write_text(out, name.bytes())?;
    write_table_size(out, table)?;
    write_origin(out, line, edition)?;
    write_table_lines(out, table)
}

/// Writes the entries of the table of that name, if there is one.
fn write_named<K: Sink>(
    out: &mut K,
    config: &Config,
    name: &Name,
    line: u32,
    edition: u64,
) -> Result<(), Failed>
    ensures { WritesText (K.state out.old) (K.state out.new)
        (text.named_listing line edition name.now (table_named config.now.tables name.now)) result }
{
    match config.table(name) {
        Some(table) => write_table(out, name, table, line, edition),
        None => Ok(()),
    }
}

/// Writes what a configuration's listing shows: its rules, or the entries of a table.
fn write_listing<K: Sink>(
    out: &mut K,
    config: &Config,
    line: u32,
    edition: u64,
    table: &Option<Name>,
) -> Result<(), Failed>
    ensures { WritesText (K.state out.old) (K.state out.new)
        (text.config_listing line edition table.now config.now) result }
{
    match table {
        None => write_rules(out, config, line, edition),
        Some(name) => write_named(out, config, name, line, edition),
    }
}

/// The edition of that number.
fn edition_of(editions: &[Arc<Edition>], number: u64) -> Option<&Arc<Edition>>
    ensures { option_map arc_value (option_copied result)
        ≡ text.edition_of (map arc_value editions.now) number }
{
    for edition in editions {
        if edition.number() == number {
            return Some(edition);
        }
    }
    None
}

fn put_refusal(line: &mut Line, fault: ApplyFault)
    requires { length line.old + 20 ≤ LINE_BYTES }
    ensures items { line.new ≡ word_of fault ++ line.old }
    ensures room { length line.new ≤ length line.old + 20 }
{
    line.put_text(fault.word().as_bytes());
}

/// Writes that a command was refused.
#[tactic(auto, unfolding(report_texts::specs::AnswerText::refused_line))]
fn write_refused<K: Sink>(out: &mut K, line: u32, fault: ApplyFault) -> Result<(), Failed>
    ensures { WritesText (K.state out.old) (K.state out.new) (text.refused_line line fault) result }
{
    let mut refused = Line::new();
    refused.put_text(b"\n");
    put_refusal(&mut refused, fault);
    refused.put_text(b" ");
    refused.put_number(u64::from(line));
    refused.put_text(b"refused line ");
    refused.write(out)
}

fn write_answer<K: Sink>(
    out: &mut K,
    editions: &[Arc<Edition>],
    answer: &LineAnswer,
) -> Result<(), Failed>
    ensures { WritesText (K.state out.old) (K.state out.new)
        (text.answer_text (map arc_value editions.now) answer.now) result }
{
    match &answer.answer {
        Answer::Refused(fault) => write_refused(out, answer.line, *fault),
        Answer::Listed { edition, table } => match edition_of(editions, *edition) {
            Some(listed) => write_listing(out, listed.config(), answer.line, *edition, table),
            None => Ok(()),
        },
    }
}

/// Writes the answers to lines of the script, in their order.
pub(crate) fn write_answers<K: Sink>(
    out: &mut K,
    editions: &[Arc<Edition>],
    answers: &[LineAnswer],
) -> Result<(), Failed>
    ensures { WritesText (K.state out.old) (K.state out.new)
        (text.answers_text (map arc_value editions.now) answers.now) result }
{
    for answer in answers {
        write_answer(out, editions, answer)?;
    }
    Ok(())
}
