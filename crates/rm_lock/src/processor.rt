ghost use Rattle.std.specs.Prelude.{◌≡◌, is_some};
ghost use Rattle.rm_lock.specs.Tokens.{told_number};

use fw_base::{Kept, Numbered};
use rm_table::RmSeat;
use std::marker::Model;

/// A processor between two sections. Contracts see its table and what it knows.
#[derive(Drop)]
pub struct Processor<E: Numbered<Tag = B::Facts>, B: Kept> {
    pub(crate) seat: RmSeat<E, B>,
    pub(crate) place: u32,
    pub(crate) number: u64,
    pub(crate) told: u64,
    pub(crate) refused: bool,
}

impl<E: Numbered<Tag = B::Facts>, B: Kept> Model for Processor<E, B> {
    ghost use Rattle.rm_lock.specs.Tokens.{TokenState, IsOutBy};

    ghost Value = { TokenState E B B.Facts E.Label B.Item };

    ghost view = { λ p. record { table_id = p.seat.table_id; view = p.seat.me.0 } };

    ghost invariant = { λ p. IsOutBy p.place p.number p.told p.refused p.seat.me.0 p.seat.me.1 };
}

impl<E: Numbered<Tag = B::Facts>, B: Kept> Processor<E, B> {
    /// Its place among the processors, from 1.
    pub fn place(&self) -> u32
        ensures { result ≡ self.now.view.place }
    {
        self.place
    }

    /// Whether it was refused since it last regained.
    pub fn is_refused(&self) -> bool
        ensures { result ≡ is_some self.now.view.part.refusal }
    {
        self.refused
    }

    /// The number that it last held or regained.
    pub fn number(&self) -> u64
        ensures { result ≡ self.now.view.part.held }
    {
        self.number
    }

    /// The greatest number among the editions that its checks found and those that it was told of by
    /// receipts, 0 where there is none.
    pub fn told(&self) -> u64
        ensures { result ≡ told_number self.now.view }
    {
        self.told
    }
}
