ghost use Rattle.std.specs.Prelude.{◌≡◌, IfOk, map, slice_index_or};
ghost use Rattle.report_values.specs.Outcomes as spec;

use crate::{KnownRules, OutcomeTexts, Records, outcome_text};
use eval_engine::DocketEntry;
use fw_base::OutOfMemory;
use fw_rule::Items;
use std::alloc::Global;

/// The numbers of what entries stand for.
fn numbers_of_kinds(
    alloc: Global,
    texts: &mut OutcomeTexts,
    known: &KnownRules<'_>,
    kinds: &[DocketEntry],
) -> Result<Vec<u32>, OutOfMemory>
    ensures { IfOk result (λ numbers. spec.NumbersAll texts.old texts.new
        (map (spec.outcome_text known.now) kinds.now) numbers.items) }
{
    let mut numbers = Vec::new(alloc);
    for kind in kinds {
        let text = outcome_text(alloc, known, kind)?;
        let number = texts.number_of(alloc, text)?;
        numbers.push(number)?;
    }
    Ok(numbers)
}

/// The number at a place; 0 past the end.
fn number_at(numbers: &[u32], place: u32) -> u32
    ensures { result ≡ slice_index_or numbers.now place 0 }
{
    numbers.get(place as usize).copied().unwrap_or(0)
}

/// The numbers at these places.
fn numbers_at(alloc: Global, numbers: &[u32], places: &[u32]) -> Result<Vec<u32>, OutOfMemory>
    ensures { IfOk result (λ found. found.items
        ≡ map (λ place. slice_index_or numbers.now place 0) places.now) }
{
    let found = places
        .iter()
        .map(|place| number_at(numbers, *place))
        .collect(alloc)?;
    Ok(found)
}

/// The numbers of what the records of a capture came to. Texts that are new are added behind the others, so that each
/// stands there once: two records came to the same exactly where their numbers are equal.
pub fn outcome_numbers(
    alloc: Global,
    texts: &mut OutcomeTexts,
    known: &KnownRules<'_>,
    records: &Records,
) -> Result<Items<u32>, OutOfMemory>
    ensures { IfOk result (λ numbers. spec.NumbersAll texts.old texts.new
        (map (spec.outcome_text known.now) records.now) numbers) }
{
    let (kinds, places) = records.parts();
    let of_kinds = numbers_of_kinds(alloc, texts, known, kinds)?;
    let numbers = numbers_at(alloc, &of_kinds, places)?;
    Ok(Items::from_vec(numbers))
}
