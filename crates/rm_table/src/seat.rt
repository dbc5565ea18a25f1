ghost use Rattle.std.specs.Prelude.{◌≤◌};

use crate::padded_slot::PaddedSlot;
use crate::rule::LockView;
use atomic_table::Seat;
use fw_base::{Kept, Numbered};
use std::marker::Model;

/// A seat of a lock's table, with the numbers that its steps store. What it knows and the slots that it has
/// in its hand exist for proofs alone.
#[derive(Drop)]
pub struct RmSeat<E: Numbered<Tag = B::Facts>, B: Kept> {
    pub(crate) seat: Seat<PaddedSlot<E, B>, LockView<E, B>>,
    pub(crate) processors: u32,
    pub(crate) place: u32,
    pub(crate) number: u64,
    pub(crate) tracker: u64,
}

impl<E: Numbered<Tag = B::Facts>, B: Kept> Model for RmSeat<E, B> {
    ghost use Rattle.rm_table.specs.Seats.{SeatState, StoresBy};

    ghost Value = { SeatState E B B.Facts E.Label B.Item };

    ghost view = { λ s. record { table_id = s.seat.table_id; me = s.seat.me } };

    ghost invariant = { λ s.
        StoresBy s.processors s.place s.number s.tracker s.seat.table_id s.seat.me.0 };
}

impl<E: Numbered<Tag = B::Facts>, B: Kept> RmSeat<E, B> {
    /// Does nothing, and says that its table has at most 64 processors.
    pub(crate) fn tells_processors(&self)
        ensures { self.now.me.0.count ≤ 64 }
    {
        let _ = &self.processors;
    }
}
