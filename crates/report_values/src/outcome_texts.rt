ghost use Rattle.std.specs.Prelude.{◌≡◌, [], IfOk, false, nat_eq, slice_index_or};
ghost use Rattle.std.specs.Cmp.Lexicographic.{pointwise};
ghost use Rattle.std.specs.List.{IsDistinct, list_any};
ghost use Rattle.report_values.specs.TextNumbers as spec;
ghost use Rattle.report_values.specs.Outcomes.{Numbers};

use fw_base::OutOfMemory;
use fw_rule::Items;
use std::alloc::Global;
use std::collections::HashMap;
use std::marker::Model;

/// Texts of outcomes, each of which stands there once, with its place as its number. Contracts see their list.
#[derive(Drop)]
pub struct OutcomeTexts {
    texts: Vec<Items<u8>>,
    /// The number of each text.
    numbers: HashMap<Vec<u8>, u32>,
}

impl Model for OutcomeTexts {
    ghost use Rattle.std.specs.Prelude.{List, ℕ};
    ghost use Rattle.report_values.specs.TextNumbers.{AreNumbered};

    ghost Value = { List (List ℕ) };

    ghost view = { λ t. t.texts.items };

    ghost invariant = { λ t. AreNumbered t.texts.items t.numbers };
}

/// The number of this text, if it has one.
fn number_in(numbers: &HashMap<Vec<u8>, u32>, text: &[u8]) -> Option<u32>
    ensures { result ≡ spec.number_in numbers.now text.now }
{
    numbers.get(text).copied()
}

/// A place as a number, of which there are 2^32.
fn number_from(place: usize) -> Result<u32, OutOfMemory>
    ensures { IfOk result (λ number. number ≡ place) }
{
    match u32::try_from(place) {
        Ok(number) => Ok(number),
        Err(_) => Err(OutOfMemory),
    }
}

impl OutcomeTexts {
    /// No text.
    pub fn new(alloc: Global) -> OutcomeTexts
        ensures { result ≡ [] }
    {
        OutcomeTexts {
            texts: Vec::new(alloc),
            numbers: HashMap::new(alloc),
        }
    }

    /// The texts, by their numbers.
    pub fn into_vec(self) -> Vec<Items<u8>>
        ensures texts { result.items ≡ self }
        ensures distinct { IsDistinct (pointwise nat_eq) result.items }
    {
        self.texts
    }

    /// Adds a text that isn't among the others, and answers its number.
    fn add(&mut self, alloc: Global, text: Items<u8>) -> Result<u32, OutOfMemory>
        requires { list_any (pointwise nat_eq text) self.old ≡ false }
        ensures { IfOk result (Numbers self.old self.new text) }
    {
        let number = number_from(self.texts.len())?;
        let key = Vec::from_slice(alloc, text.as_slice())?;
        self.texts.reserve(1)?;
        self.numbers.insert(key, number)?;
        self.texts.push(text)?;
        Ok(number)
    }

    /// The number of this text, which is added behind the others where it is new.
    pub(crate) fn number_of(&mut self, alloc: Global, text: Items<u8>) -> Result<u32, OutOfMemory>
        ensures { IfOk result (Numbers self.old self.new text) }
    {
        match number_in(&self.numbers, text.as_slice()) {
            Some(number) => Ok(number),
            None => self.add(alloc, text),
        }
    }
}

/// The text of an outcome, by its number; empty where there is none of that number.
pub fn text_at(texts: &[Items<u8>], number: u32) -> &[u8]
    ensures { result.now ≡ slice_index_or texts.now number [] }
{
    match texts.get(number as usize) {
        Some(text) => text.as_slice(),
        None => b"",
    }
}
