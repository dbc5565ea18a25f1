ghost use Rattle.std.specs.Prelude.{◌≡◌, Some};
ghost use Rattle.std.specs.Borrow.{Lends, sem};
ghost use Rattle.rm_lock.specs.contracts.holding.Holding.{the_row};
ghost use Rattle.rm_lock.specs.Tokens.{with_book};

use fw_base::{Kept, Numbered};
use rm_table::RmSeat;
use std::marker::Model;

/// A processor in a section, with its edition and the book.
#[derive(Drop)]
pub struct Holding<E: Numbered<Tag = B::Facts>, B: Kept> {
    pub(crate) seat: RmSeat<E, B>,
    pub(crate) edition: E,
    pub(crate) book: B,
    pub(crate) place: u32,
    pub(crate) refused: bool,
}

impl<E: Numbered<Tag = B::Facts>, B: Kept> Model for Holding<E, B> {
    ghost use Rattle.rm_lock.specs.Tokens.{BookTokenState, HoldsBy};

    ghost Value = { BookTokenState E B B.Facts E.Label B.Item };

    ghost view = { λ h. record { table_id = h.seat.table_id; view = h.seat.me.0; book = h.book } };

    ghost invariant = { λ h. HoldsBy E.number h.place h.refused h.edition h.seat.me.0 h.seat.me.1 };
}

impl<E: Numbered<Tag = B::Facts>, B: Kept> Holding<E, B> {
    /// The number of the edition.
    pub fn number(&self) -> u64
        ensures { result ≡ self.now.view.part.held }
    {
        self.edition.number()
    }

    /// The edition that its check found, which stays the published one until `leave`.
    pub fn edition(&self) -> &E
        ensures { self.now.view.part.reading ≡ Some result.now }
    {
        &self.edition
    }

    /// The book, for writing.
    pub fn book(&mut self) -> &mut B
        ensures* writes_back { sem 𝓛
            (Lends (the_row E.row B.row E.Label.row B.Facts.row B.Item.row E.Numbered B.Kept) B.row
            self.entry result (with_book self.old)) }
        ensures value { result.now ≡ self.old.book }
    {
        &mut self.book
    }
}
