ghost use Rattle.std.specs.Prelude.{◌≡◌};
ghost use Rattle.ipfw_parser.specs.Reading as reading;

use crate::{Kind, ParseFault};

/// A word, and the column where it begins, from 1. An element of a list has the column of the whole
/// word.
#[derive(Clone, Copy)]
pub struct Word<'a> {
    pub column: u32,
    pub text: &'a [u8],
}

impl Word<'_> {
    /// The fault that the word is.
    pub fn fault(&self, kind: Kind) -> ParseFault
        ensures { result ≡ ParseFault.At self.now.column kind }
    {
        ParseFault::At {
            column: self.column,
            kind,
        }
    }

    /// Whether it is this word.
    #[tactic(auto, unfolding(crate::specs::Reading::same))]
    pub fn is(&self, name: &[u8]) -> bool
        ensures { result ≡ reading.same self.now.text.now name.now }
    {
        self.text == name
    }
}
