ghost use Rattle.std.specs.Prelude.{◌≤◌, length};
ghost use Rattle.ipfw_parser.specs.Reading.{HoldsTokens};

use crate::{Kind, ParseFault, Word};
use fw_lex::Token;

/// Words of a line, from one on.
#[derive(Clone, Copy)]
pub struct Words<'a> {
    pub line: &'a [u8],
    pub tokens: &'a [Token],
    ghost short: { length line.now ≤ 1048576 },
    ghost within: { HoldsTokens line.now tokens.now },
}

impl<'a> Words<'a> {
    ghost use Rattle.std.specs.Prelude.{◌≡◌, ◌<◌, ◌^◌, ◌≤◌, IfOk, IfSome, IsTrue, ◌↔◌, [], length};
    ghost use Rattle.ipfw_parser.specs.Reading as reading;
    ghost use Rattle.std.specs.Prelude.{◌∷◌};
    ghost use Rattle.std.specs.Option.{option_map};
    ghost use Rattle.ipfw_parser.specs.Reading.{ReadsAs, NeedsNoMemory, some_words};
    ghost use Rattle.ipfw_parser.specs.Views.{view, list_of};

    /// The next word, if there is one, and the words behind it.
    pub fn next(self) -> Option<(Word<'a>, Words<'a>)>
        ensures { option_map (λ r. view r.0 ∷ list_of r.1) result
            ≡ some_words (list_of self.entry) }
    {
        match self.tokens {
            [] => None,
            [token, tokens @ ..] => {
                let word = Word {
                    column: token.start + 1,
                    text: &self.line[token.start as usize..token.end as usize],
                };
                let words = Words {
                    line: self.line,
                    tokens,
                };
                Some((word, words))
            }
        }
    }

    #[tactic(auto, unfolding(crate::specs::Reading::first))]
    /// The next word and the words behind it. `end` is the column one past the line's last word.
    pub fn first(self, end: u32) -> Result<(Word<'a>, Words<'a>), ParseFault>
        ensures value { ReadsAs (λ r. (view r.0, list_of r.1)) result
            (reading.first end (list_of self.entry)) }
        ensures memory { NeedsNoMemory result }
    {
        match self.next() {
            Some(found) => Ok(found),
            None => Err(ParseFault::At {
                column: end,
                kind: Kind::MissingWord,
            }),
        }
    }
}
