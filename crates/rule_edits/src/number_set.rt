ghost use Rattle.std.specs.Prelude.{◌≡◌, ◌==◌, [], ◌∷◌, ◌++◌, ℕ, false, length, slice_index_or, IfOk, OnOk};
ghost use Rattle.rule_edits.specs.Marks.{AreMarked};
ghost use Rattle.rule_edits.specs.Rules as lists;

use fw_base::OutOfMemory;
use std::alloc::Global;
use std::marker::Model;

/// How many numbers a rule might have: 0 to 65535.
const ALL_NUMBERS: usize = 65_536;

/// Up to that many numbers are looked through one after the other, so that no marks are made for them.
const FEW: usize = 16;

/// Numbers of rules. Contracts see it as the list of them.
///
/// Where they are many, a mark stands at each number that is one of them, so that a question takes one
/// step.
#[derive(Drop)]
pub(crate) struct NumberSet {
    numbers: Vec<u16>,
    marks: Option<Vec<bool>>,
}

impl Model for NumberSet {
    ghost use Rattle.std.specs.Prelude.{ℕ, List, IfSome};
    ghost use Rattle.rule_edits.specs.Marks.{AreMarked};

    ghost Value = { List ℕ };

    ghost view = { λ s. s.numbers.items };

    ghost invariant = { λ s. IfSome s.marks (λ marks. AreMarked s.numbers.items marks.items) };
}

/// As many places without a mark.
fn no_marks(alloc: Global, count: usize) -> Result<Vec<bool>, OutOfMemory>
    ensures count { IfOk result (λ marks. length marks.items ≡ count) }
    ensures none { IfOk result (λ marks. (place : ℕ)
        → slice_index_or marks.items place false ≡ false) }
{
    Ok(vec![in alloc; false; count]?)
}

/// A mark at each of the numbers.
fn marks_of(alloc: Global, numbers: &[u16]) -> Result<Vec<bool>, OutOfMemory>
    ensures { IfOk result (λ marks. AreMarked numbers.now marks.items) }
{
    let mut marks = no_marks(alloc, ALL_NUMBERS)?;
    for number in numbers {
        marks[usize::from(*number)] = true;
    }
    Ok(marks)
}

impl NumberSet {
    /// These numbers.
    pub(crate) fn of(alloc: Global, numbers: &[u16]) -> Result<NumberSet, OutOfMemory>
        ensures { IfOk result (λ set. set ≡ numbers.now) }
    {
        let held = Vec::from_slice(alloc, numbers)?;
        if numbers.len() <= FEW {
            return Ok(NumberSet {
                numbers: held,
                marks: None,
            });
        }
        Ok(NumberSet {
            numbers: held,
            marks: Some(marks_of(alloc, numbers)?),
        })
    }

    /// Whether the number is one of them.
    pub(crate) fn has(&self, number: u16) -> bool
        ensures { result ≡ lists.is_among self.now number }
    {
        match &self.marks {
            Some(marks) => marks[usize::from(number)],
            None => self.numbers.iter().any(|other| *other == number),
        }
    }

    /// Whether there is none.
    pub(crate) fn is_empty(&self) -> bool
        ensures { result ≡ (length self.now == 0) }
    {
        self.numbers.is_empty()
    }
}
