ghost use Rattle.std.specs.Prelude.{◌≡◌, IfErr, IfOk, MatchOption, None, length, map, min};
ghost use Rattle.report_moves.specs.Moves.{HaveSameLengths};
ghost use Rattle.view_driver.specs.MovesTold as spec;

use crate::trouble::Trouble;
use fw_base::OutOfMemory;
use fw_rule::Items;
use report_flows::FlowSpan;
use report_moves::{Move, Moves, have_same_lengths, moves_between};
use report_values::{Capture, KnownRules, OutcomeTexts, Report, other_verdicts, outcome_numbers};
use std::alloc::Global;

/// The outcomes of two reports, and what moved between them.
#[derive(Drop)]
pub(crate) struct Compared {
    /// The texts of the outcomes, by their numbers.
    pub(crate) texts: Vec<Items<u8>>,
    /// The outcomes' numbers for the records of each capture, then and now.
    pub(crate) old: Vec<Items<u32>>,
    pub(crate) new: Vec<Items<u32>>,
    pub(crate) moves: Moves,
    /// How many records came to another verdict; the others that moved came to another rule or by
    /// another cause.
    pub(crate) other_verdicts: u64,
    /// The flows of what moved, a list for each move, where they are told.
    pub(crate) flows: Option<Vec<Items<FlowSpan>>>,
}

/// The numbers of the outcomes of each capture.
fn numbers_of(
    alloc: Global,
    texts: &mut OutcomeTexts,
    report: &Report<'_>,
) -> Result<Vec<Items<u32>>, OutOfMemory>
    ensures counts { IfOk result (λ numbers. map length numbers.items
        ≡ spec.counts_of report.now.captures.items) }
    ensures outcomes { IfOk result (λ numbers.
        spec.TellsOutcomes texts.old texts.new report.now.captures.items numbers.items) }
{
    let known = KnownRules::new(alloc, report.sections.known.as_slice())?;
    let mut numbers = Vec::new(alloc);
    for capture in &report.captures {
        numbers.push(outcome_numbers(alloc, texts, &known, &capture.records)?)?;
    }
    Ok(numbers)
}

/// The place of the first capture of both reports that doesn't have as many records in both.
fn first_other(old: &[Items<u32>], new: &[Items<u32>]) -> Option<usize>
    ensures { MatchOption result
        (spec.AreAlike (map length old.now) (map length new.now) (min (length old.now) (length new.now)))
        (spec.IsOtherAt (map length old.now) (map length new.now)) }
{
    for place in 0..old.len().min(new.len()) {
        if old[place].as_slice().len() != new[place].as_slice().len() {
            return Some(place);
        }
    }
    None
}

/// Where the reports don't have as many captures or records.
fn unlike<'a>(old: &[Items<u32>], new: &[Items<u32>]) -> Trouble<'a>
    requires { HaveSameLengths old.now new.now → ⊥ }
    ensures { spec.IsUnlike (map length old.now) (map length new.now) result }
{
    match first_other(old, new) {
        Some(place) => Trouble::Records {
            capture: place as u64 + 1,
            old: old[place].as_slice().len() as u64,
            new: new[place].as_slice().len() as u64,
        },
        None => Trouble::Captures {
            old: old.len() as u64,
            new: new.len() as u64,
        },
    }
}

/// How many records of these captures came to another verdict.
fn verdicts_between(old: &[Capture<'_>], new: &[Capture<'_>]) -> u64
    ensures { result ≡ spec.verdicts_between old.now new.now }
{
    let mut records: u64 = 0;
    for place in 0..old.len().min(new.len()) {
        let others = other_verdicts(&old[place].records, &new[place].records);
        records = records.saturating_add(others);
    }
    records
}

/// What moved from a report to another one of the same captures.
pub(crate) fn compare<'a>(
    alloc: Global,
    old: &Report<'_>,
    new: &Report<'_>,
) -> Result<Compared, Trouble<'a>>
    ensures compared { IfOk result spec.IsCompared }
    // What is compared is what the records of the reports came to, and no flows are told yet.
    ensures outcomes { IfOk result
        (spec.HasOutcomes old.now.captures.items new.now.captures.items) }
    ensures counts { IfOk result (λ compared. spec.HasCounts
        (spec.counts_of old.now.captures.items) (spec.counts_of new.now.captures.items) compared) }
    ensures flowless { IfOk result (λ compared. compared.flows ≡ None) }
    // Where they don't fit, the first capture that doesn't is told, or that one report has more.
    ensures cause { IfErr result (spec.IsUnlike
        (spec.counts_of old.now.captures.items) (spec.counts_of new.now.captures.items)) }
{
    let other_verdicts = verdicts_between(&old.captures, &new.captures);
    let mut texts = OutcomeTexts::new(alloc);
    let old = numbers_of(alloc, &mut texts, old)?;
    let new = numbers_of(alloc, &mut texts, new)?;
    if !have_same_lengths(&old, &new) {
        return Err(unlike(&old, &new));
    }
    let moves = moves_between(alloc, &old, &new)?;
    Ok(Compared {
        texts: texts.into_vec(),
        old,
        new,
        moves,
        other_verdicts,
        flows: None,
    })
}

/// How many records some moves have.
pub(crate) fn records_of(moves: &[Move]) -> u64
    ensures { result ≡ spec.records_told moves.now }
{
    let mut records: u64 = 0;
    for told in moves {
        records = records.saturating_add(told.span.records);
    }
    records
}
