ghost use Rattle.std.specs.Prelude.{◌≡◌};

use fw_base::{Kept, Numbered};
use rm_table::RmSeat;
use std::marker::Model;

/// The operator, the one writer, between two writes.
#[derive(Drop)]
pub struct Operator<E: Numbered<Tag = B::Facts>, B: Kept> {
    pub(crate) seat: RmSeat<E, B>,
    pub(crate) processors: u32,
    pub(crate) number: u64,
}

impl<E: Numbered<Tag = B::Facts>, B: Kept> Model for Operator<E, B> {
    ghost use Rattle.rm_lock.specs.Tokens.{TokenState, IsAtRestBy};

    ghost Value = { TokenState E B B.Facts E.Label B.Item };

    ghost view = { λ o. record { table_id = o.seat.table_id; view = o.seat.me.0 } };

    ghost invariant = { λ o. IsAtRestBy o.processors o.number o.seat.me.0 o.seat.me.1 };
}

impl<E: Numbered<Tag = B::Facts>, B: Kept> Operator<E, B> {
    /// The published number.
    pub fn number(&self) -> u64
        ensures { result ≡ self.now.view.number }
    {
        self.number
    }
}
