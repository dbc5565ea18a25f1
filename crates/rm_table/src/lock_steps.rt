ghost use Rattle.std.specs.Prelude.{◌≡◌, ℕ, true};
ghost use Rattle.rm_table.specs.Layout.{behind_index};
ghost use Rattle.rm_table.specs.Meanings.{meanings};
ghost use Rattle.rm_table.specs.Moves.{with_step, behind_given, IsWorking, NoneRevoked};
ghost use Rattle.rm_table.specs.Answers.{AnswersBehindTry, AnswersNumberRead};

use crate::plays::{GiveBack, ReadNumber, TakeBack};
use crate::table::{behind_at, number_at};
use crate::{RmSeat, RmTable, Role};
use fw_base::{Kept, Numbered};

/// What one try for a lock answers.
#[derive(Clone, Copy, Debug, PartialEq, Eq)]
pub enum Tried {
    Taken,
    /// The holder that the try saw in the word: a processor's place, or one past the last for the
    /// operator.
    HeldBy(u32),
}

impl<E: Numbered<Tag = B::Facts>, B: Kept> RmTable<E, B> {
    /// A processor or the operator tries once to take the lock behind. Where another holds it nothing
    /// changes. One compare-and-exchange.
    pub fn take_back(&self, seat: &mut RmSeat<E, B>) -> Tried
        requires table { seat.old.table_id ≡ self.now }
        requires working { IsWorking seat.old.me.0 }
        ensures table { seat.new.table_id ≡ seat.old.table_id }
        ensures step { AnswersBehindTry (meanings E.Numbered B.Kept) seat.old.me
            result seat.new.me }
    {
        let place = u64::from(seat.place);
        let found = self
            .table
            .shared
            .compare_exchange::<TakeBack>(&mut seat.seat, behind_at(), 0, place);
        if found == 0 {
            Tried::Taken
        } else {
            Tried::HeldBy(found as u32)
        }
    }

    /// The holder of the lock behind gives it back; the operator only where it has revoked nobody since the
    /// last publication. One store.
    pub fn give_back(&self, seat: &mut RmSeat<E, B>)
        requires table { seat.old.table_id ≡ self.now }
        requires working { IsWorking seat.old.me.0 }
        requires behind { seat.old.me.0.behind ≡ true }
        requires unrevoked { seat.old.me.0.role ≡ Role.Operator → NoneRevoked seat.old.me.0 }
        ensures table { seat.new.table_id ≡ seat.old.table_id }
        ensures step { seat.new.me
            ≡ (with_step (behind_given seat.old.me.0) behind_index 0, seat.old.me.1) }
    {
        self.table
            .shared
            .store::<GiveBack>(&mut seat.seat, behind_at(), 0);
    }

    /// A processor or the operator reads the published number. One load.
    pub fn read_number(&self, seat: &mut RmSeat<E, B>) -> u64
        requires table { seat.old.table_id ≡ self.now }
        requires working { IsWorking seat.old.me.0 }
        ensures table { seat.new.table_id ≡ seat.old.table_id }
        ensures step { AnswersNumberRead (meanings E.Numbered B.Kept) seat.old.me
            result seat.new.me }
    {
        self.table
            .shared
            .load::<ReadNumber>(&mut seat.seat, number_at())
    }
}
