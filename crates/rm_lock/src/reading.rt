ghost use Rattle.std.specs.Prelude.{◌≡◌, Some};
ghost use Rattle.rm_lock.specs.Tokens.{told_number};

use fw_base::{Kept, Numbered};
use rm_table::RmSeat;
use std::marker::Model;

/// A processor in a section, with the edition that it reads.
#[derive(Drop)]
pub struct Reading<E: Numbered<Tag = B::Facts>, B: Kept> {
    pub(crate) seat: RmSeat<E, B>,
    pub(crate) edition: E,
    pub(crate) place: u32,
    pub(crate) refused: bool,
}

impl<E: Numbered<Tag = B::Facts>, B: Kept> Model for Reading<E, B> {
    ghost use Rattle.rm_lock.specs.Tokens.{TokenState, IsInBy};

    ghost Value = { TokenState E B B.Facts E.Label B.Item };

    ghost view = { λ r. record { table_id = r.seat.table_id; view = r.seat.me.0 } };

    ghost invariant = { λ r. IsInBy E.number r.place r.refused r.edition r.seat.me.0 r.seat.me.1 };
}

impl<E: Numbered<Tag = B::Facts>, B: Kept> Reading<E, B> {
    /// The number of the edition.
    pub fn number(&self) -> u64
        ensures { result ≡ self.now.view.part.held }
    {
        self.edition.number()
    }

    /// The greatest number among the editions that its checks found and those that it was told of by
    /// receipts: no receipt that it heard is past its edition.
    pub fn told(&self) -> u64
        ensures { result ≡ told_number self.now.view }
    {
        self.edition.number()
    }

    /// The edition that its check found, which stays the published one until `leave`.
    pub fn edition(&self) -> &E
        ensures { self.now.view.part.reading ≡ Some result.now }
    {
        &self.edition
    }
}
