ghost use Rattle.std.specs.Prelude.{◌≡◌};
ghost use Rattle.std.specs.Borrow.{Lends, sem};
ghost use Rattle.rm_lock.specs.contracts.keeping.Keeping.{the_row};
ghost use Rattle.rm_lock.specs.Tokens.{with_book};

use fw_base::{Kept, Numbered};
use rm_table::RmSeat;
use std::marker::Model;

/// The operator, with the book.
#[derive(Drop)]
pub struct Keeping<E: Numbered<Tag = B::Facts>, B: Kept> {
    pub(crate) seat: RmSeat<E, B>,
    pub(crate) book: B,
    pub(crate) processors: u32,
    pub(crate) number: u64,
}

impl<E: Numbered<Tag = B::Facts>, B: Kept> Model for Keeping<E, B> {
    ghost use Rattle.rm_table.specs.Meanings.{meanings};
    ghost use Rattle.rm_lock.specs.Tokens.{BookTokenState, KeepsBy};

    ghost Value = { BookTokenState E B B.Facts E.Label B.Item };

    ghost view = { λ k. record { table_id = k.seat.table_id; view = k.seat.me.0; book = k.book } };

    ghost invariant = { λ k.
        KeepsBy (meanings E.Numbered B.Kept) k.processors k.number k.seat.me.0 k.seat.me.1 };
}

impl<E: Numbered<Tag = B::Facts>, B: Kept> Keeping<E, B> {
    /// The book, for writing.
    pub fn book(&mut self) -> &mut B
        ensures* writes_back { sem 𝓛
            (Lends (the_row E.row B.row E.Label.row B.Facts.row B.Item.row E.Numbered B.Kept) B.row
            self.entry result (with_book self.old)) }
        ensures value { result.now ≡ self.old.book }
    {
        &mut self.book
    }
}
