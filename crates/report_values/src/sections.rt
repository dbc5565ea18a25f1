ghost use Rattle.std.specs.Prelude.{◌≡◌, codes, length};
ghost use Rattle.report_values.specs.Lines.{ReadsTo, told_at};
ghost use Rattle.report_values.specs.Sections as spec;

use crate::fields::{edition_in, entries_in, whole_number};
use crate::lines::line_number;
use crate::reads::{
    counted_lines, hits_lines, pass_lanes, pass_lines, read_lines, rule_lines, wanted_number,
};
use crate::{CountedRule, KnownRule, Lines, Unfit};
use fw_base::OutOfMemory;
use report_reading::behind;
use std::alloc::Global;
use std::collections::HashSet;

/// What a report tells behind its captures.
#[derive(Drop)]
pub struct Sections<'a> {
    /// The refused lines of the script, each as `line L FAULT`.
    pub refused: Vec<&'a [u8]>,
    /// The rules of each edition that is listed, and those of the last.
    pub known: Vec<KnownRule<'a>>,
    /// How many editions there were.
    pub editions: u64,
    /// The numbers of the disabled sets; empty where none is.
    pub disabled: &'a [u8],
    /// The rules of the last edition with what they counted.
    pub rules: Vec<CountedRule<'a>>,
    /// The live states, each as `RULE FLOW expires S`, with its name.
    pub states: Vec<&'a [u8]>,
    /// How often each capture's cache had the verdict; empty where no cache was asked for.
    pub hits: Vec<u64>,
    /// The journal, where it was asked for.
    pub journal: Option<Journal<'a>>,
}

/// The journal of the states.
#[derive(Drop)]
pub struct Journal<'a> {
    /// How many entries it has.
    pub entries: u64,
    /// The line of the report at which they begin, from 1.
    pub line: u64,
    /// Their lines.
    pub lines: &'a [u8],
}

/// What answers to lines of the script tell.
#[derive(Drop)]
struct Answers<'a> {
    /// The refused lines, each as `line L FAULT`.
    refused: Vec<&'a [u8]>,
    /// The rules that are listed.
    rules: Vec<KnownRule<'a>>,
    /// The editions that are listed.
    editions: HashSet<u64>,
}

impl<'a> Answers<'a> {
    fn new(alloc: Global) -> Answers<'a> {
        Answers {
            refused: Vec::new(alloc),
            rules: Vec::new(alloc),
            editions: HashSet::new(alloc),
        }
    }

    /// The rules that an edition lists become known, unless they are.
    fn know(&mut self, edition: u64, rules: &[(u16, &'a [u8])]) -> Result<(), OutOfMemory> {
        if rules.is_empty() || !self.editions.insert(edition)? {
            return Ok(());
        }
        for (number, text) in rules {
            self.rules.push(KnownRule {
                edition,
                number: *number,
                text,
            })?;
        }
        Ok(())
    }

    /// The rules of the last edition become known, unless that edition is listed.
    fn know_last(&mut self, edition: u64, rules: &[CountedRule<'a>]) -> Result<(), OutOfMemory> {
        if self.editions.contains(&edition) {
            return Ok(());
        }
        for rule in rules {
            self.rules.push(KnownRule {
                edition,
                number: rule.number,
                text: rule.text,
            })?;
        }
        Ok(())
    }
}

/// The rules that the next lines list, behind a line that tells how many.
#[tactic(auto, unfolding(crate::specs::Sections::listing))]
fn read_listing<'a>(alloc: Global, lines: &mut Lines<'a>) -> Result<Vec<(u16, &'a [u8])>, Unfit<'a>>
    ensures { ReadsTo (spec.listing lines.old.rest.now) lines.new.rest.now result }
{
    let count = wanted_number(lines, b"rules ")?;
    rule_lines(alloc, lines, count)
}

/// The listing of an edition, behind `list line `.
fn read_listing_of<'a>(
    alloc: Global,
    lines: &mut Lines<'a>,
    line: &'a [u8],
    told: &[u8],
    answers: &mut Answers<'a>,
) -> Result<(), Unfit<'a>>
    ensures { ReadsTo (spec.listing_of line.now (told.now, lines.old.rest.now))
        lines.new.rest.now result }
{
    let Some(edition) = edition_in(told) else {
        return Err(Unfit::At(line));
    };
    let rules = read_listing(alloc, lines)?;
    answers.know(edition, rules.as_slice())?;
    Ok(())
}

/// Passes over the entries of a table, behind `table `.
fn pass_entries<'a>(lines: &mut Lines<'a>, line: &'a [u8], told: &[u8]) -> Result<(), Unfit<'a>>
    ensures { ReadsTo (spec.entries_of line.now (told.now, lines.old.rest.now))
        lines.new.rest.now result }
{
    match entries_in(told) {
        Some(count) => pass_lines(lines, count),
        None => Err(Unfit::At(line)),
    }
}

/// Reads the answer to a line of the script, and tells whether there was one.
#[tactic(auto, unfolding(crate::specs::Sections::answer))]
fn read_answer<'a>(
    alloc: Global,
    lines: &mut Lines<'a>,
    answers: &mut Answers<'a>,
) -> Result<bool, Unfit<'a>>
    ensures { spec.ReadsAnswer (spec.answer lines.old.rest.now) lines.old.rest.now
        lines.new.rest.now result }
{
    let line = lines.rest;
    if let Some(told) = lines.behind(b"refused ") {
        answers.refused.push(told)?;
        Ok(true)
    } else if let Some(told) = lines.behind(b"list line ") {
        read_listing_of(alloc, lines, line, told, answers)?;
        Ok(true)
    } else if let Some(told) = lines.behind(b"table ") {
        pass_entries(lines, line, told)?;
        Ok(true)
    } else {
        Ok(false)
    }
}

/// The answers to lines of the script, of which each has a byte at least.
fn read_answers<'a>(alloc: Global, lines: &mut Lines<'a>) -> Result<Answers<'a>, Unfit<'a>>
    ensures { ReadsTo (spec.answers (length lines.old.rest.now) lines.old.rest.now)
        lines.new.rest.now result }
{
    let mut answers = Answers::new(alloc);
    for _ in 0..lines.rest.len() {
        if !read_answer(alloc, lines, &mut answers)? {
            return Ok(answers);
        }
    }
    Ok(answers)
}

/// The disabled sets, in a line that may lack.
fn read_disabled<'a>(lines: &mut Lines<'a>) -> &'a [u8]
    ensures { lines.new.rest.now ≡ spec.behind_disabled lines.old.rest.now
        (told_at (codes "disabled ") lines.old.rest.now) }
{
    match lines.behind(b"disabled ") {
        Some(told) => told,
        None => b"",
    }
}

/// The rules of the last edition with what they counted.
#[tactic(auto, unfolding(crate::specs::Sections::rules))]
fn read_rules<'a>(alloc: Global, lines: &mut Lines<'a>) -> Result<Vec<CountedRule<'a>>, Unfit<'a>>
    ensures { ReadsTo (spec.rules lines.old.rest.now) lines.new.rest.now result }
{
    let count = wanted_number(lines, b"rules ")?;
    counted_lines(alloc, lines, count)
}

/// The live states.
#[tactic(auto, unfolding(crate::specs::Sections::states))]
fn read_states<'a>(alloc: Global, lines: &mut Lines<'a>) -> Result<Vec<&'a [u8]>, Unfit<'a>>
    ensures { ReadsTo (spec.states lines.old.rest.now) lines.new.rest.now result }
{
    let count = wanted_number(lines, b"states ")?;
    read_lines(alloc, lines, count)
}

/// The hits of the caches of so many captures, in their order; none where no cache was asked for.
#[tactic(auto, unfolding(crate::specs::Sections::caches))]
fn read_hits<'a>(alloc: Global, lines: &mut Lines<'a>, captures: u64) -> Result<Vec<u64>, Unfit<'a>>
    ensures { ReadsTo (spec.caches captures lines.old.rest.now) lines.new.rest.now result }
{
    match behind(b"cache ", lines.rest) {
        Some(_) => hits_lines(alloc, lines, captures),
        None => Ok(Vec::new(alloc)),
    }
}

/// What stands before a rest of a text.
fn before<'a>(text: &'a [u8], rest: &[u8]) -> &'a [u8] {
    let length = text.len().saturating_sub(rest.len());
    text.get(..length).unwrap_or(text)
}

/// The entries of a journal and the lanes of so many captures, behind the journal's first line.
#[tactic(auto, unfolding(crate::specs::Sections::journal_of))]
fn read_journal_of<'a>(
    lines: &mut Lines<'a>,
    captures: u64,
    line: &'a [u8],
    told: &[u8],
) -> Result<Journal<'a>, Unfit<'a>>
    ensures { ReadsTo (spec.journal_of captures line.now (told.now, lines.old.rest.now))
        lines.new.rest.now result }
{
    let Some(entries) = whole_number(told) else {
        return Err(Unfit::At(line));
    };
    let from = lines.rest;
    pass_lines(lines, entries)?;
    let behind = lines.rest;
    pass_lanes(lines, captures)?;
    Ok(Journal {
        entries,
        line: line_number(lines.text, from),
        lines: before(from, behind),
    })
}

/// The journal with the lanes of so many captures, where it is asked for.
fn read_journal<'a>(lines: &mut Lines<'a>, captures: u64) -> Result<Option<Journal<'a>>, Unfit<'a>>
    ensures { ReadsTo (spec.journal_if captures lines.old.rest.now
        (told_at (codes "journal 2 ") lines.old.rest.now)) lines.new.rest.now result }
{
    let line = lines.rest;
    match lines.behind(b"journal 2 ") {
        Some(told) => Ok(Some(read_journal_of(lines, captures, line, told)?)),
        None => Ok(None),
    }
}

/// Nothing is left.
fn wanted_end<'a>(lines: &mut Lines<'a>) -> Result<(), Unfit<'a>>
    ensures { ReadsTo (spec.ended lines.old.rest.now) lines.new.rest.now result }
{
    match lines.rest {
        [] => Ok(()),
        [_, ..] => Err(Unfit::At(lines.rest)),
    }
}

/// Reads all that stands behind so many captures, to the text's end.
#[tactic(auto, unfolding(crate::specs::Sections::sections))]
pub(crate) fn read_sections<'a>(
    alloc: Global,
    lines: &mut Lines<'a>,
    captures: u64,
) -> Result<Sections<'a>, Unfit<'a>>
    ensures { ReadsTo (spec.sections captures lines.old.rest.now) lines.new.rest.now result }
{
    let mut answers = read_answers(alloc, lines)?;
    let editions = wanted_number(lines, b"editions ")?;
    let disabled = read_disabled(lines);
    let rules = read_rules(alloc, lines)?;
    answers.know_last(editions, rules.as_slice())?;
    let _clock = wanted_number(lines, b"clock ")?;
    let states = read_states(alloc, lines)?;
    let hits = read_hits(alloc, lines, captures)?;
    let journal = read_journal(lines, captures)?;
    wanted_end(lines)?;
    Ok(Sections {
        refused: answers.refused,
        known: answers.rules,
        editions,
        disabled,
        rules,
        states,
        hits,
        journal,
    })
}
