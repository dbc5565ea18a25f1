ghost use Rattle.std.specs.Prelude.{◌≡◌};

use fw_base::{Kept, Numbered};
use rm_table::RmSeat;
use std::marker::Model;

/// What the operator had published when it was made, to be heard by one processor. Contracts see the history.
#[derive(Drop)]
pub struct Receipt<E: Numbered<Tag = B::Facts>, B: Kept> {
    pub(crate) seat: RmSeat<E, B>,
    pub(crate) number: u64,
}

impl<E: Numbered<Tag = B::Facts>, B: Kept> Model for Receipt<E, B> {
    ghost use Rattle.rm_lock.specs.Tokens.{TokenState, IsReceiptBy};

    ghost Value = { TokenState E B B.Facts E.Label B.Item };

    ghost view = { λ r. record { table_id = r.seat.table_id; view = r.seat.me.0 } };

    ghost invariant = { λ r. IsReceiptBy r.number r.seat.me.0 r.seat.me.1 };
}

impl<E: Numbered<Tag = B::Facts>, B: Kept> Receipt<E, B> {
    /// The number that was published when it was made.
    pub fn number(&self) -> u64
        ensures { result ≡ self.now.view.number }
    {
        self.number
    }
}
