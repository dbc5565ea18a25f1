ghost use Rattle.ipfw_parser.specs.Reading as spec;
ghost use Rattle.ipfw_parser.specs.Reading.{ReadsAs};
ghost use Rattle.ipfw_parser.specs.Views.{list_of};

use crate::{ParseFault, Words};

/// Whether `not` stands before the next words, and the words without it.
#[tactic(auto, unfolding(crate::specs::Reading::negation))]
pub(crate) fn negation(end: u32, words: Words<'_>) -> Result<(bool, Words<'_>), ParseFault>
    ensures { ReadsAs (λ r. (r.0, list_of r.1)) result (spec.negation end (list_of words.entry)) }
{
    let (next, rest) = words.first(end)?;
    if next.is(b"not") {
        Ok((true, rest))
    } else {
        Ok((false, words))
    }
}
