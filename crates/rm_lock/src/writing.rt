ghost use Rattle.std.specs.Prelude.{◌≡◌};

use fw_base::{Kept, Numbered};
use rm_table::RmSeat;
use std::marker::Model;

/// The operator in a write: every token is revoked and every processor is out.
#[derive(Drop)]
pub struct Writing<E: Numbered<Tag = B::Facts>, B: Kept> {
    pub(crate) seat: RmSeat<E, B>,
    pub(crate) processors: u32,
    pub(crate) number: u64,
}

impl<E: Numbered<Tag = B::Facts>, B: Kept> Model for Writing<E, B> {
    ghost use Rattle.rm_table.specs.Meanings.{meanings};
    ghost use Rattle.rm_lock.specs.Tokens.{TokenState, WritesBy};

    ghost Value = { TokenState E B B.Facts E.Label B.Item };

    ghost view = { λ w. record { table_id = w.seat.table_id; view = w.seat.me.0 } };

    ghost invariant = { λ w.
        WritesBy (meanings E.Numbered B.Kept) w.processors w.number w.seat.me.0 w.seat.me.1 };
}

impl<E: Numbered<Tag = B::Facts>, B: Kept> Writing<E, B> {
    /// The published number, until the publication.
    pub fn number(&self) -> u64
        ensures { result ≡ self.now.view.number }
    {
        self.number
    }
}
