ghost use Rattle.std.specs.Prelude.{◌≡◌};
ghost use Rattle.lock_tests.specs.MarkedEdition.{marked_edition};

use fw_base::Numbered;

/// What a publication tells the book: its number, and a mark that is another number.
#[derive(Clone, Copy, Debug, PartialEq, Eq)]
pub(crate) struct Mark {
    pub(crate) number: u64,
    pub(crate) mark: u64,
}

/// An edition whose number, tag and name differ.
#[derive(Clone, Copy, Debug, PartialEq, Eq)]
pub(crate) struct MarkedEdition {
    pub(crate) tag: Mark,
    pub(crate) name: u64,
}

impl MarkedEdition {
    /// The edition of this number.
    pub(crate) fn of(number: u64) -> MarkedEdition
        ensures { result ≡ marked_edition number }
    {
        MarkedEdition {
            tag: Mark {
                number,
                mark: u64::MAX - number,
            },
            name: number / 2,
        }
    }
}

impl Numbered for MarkedEdition {
    type Tag = Mark;

    type Label = u64;

    ghost number = { λ e. e.tag.number };

    ghost tag = { λ e. e.tag };

    ghost name = { λ e. e.name };

    fn number(&self) -> u64 {
        self.tag.number
    }
}
