ghost use Rattle.std.specs.Prelude.{◌≡◌, ℕ, ◌+◌, ◌-◌, ◌^◌, ◌<◌, ◌≤◌, true, false, IsSome};
ghost use Rattle.rm_table.specs.Layout.{number_index, token_index};
ghost use Rattle.rm_table.specs.Meanings.{meanings};
ghost use Rattle.rm_table.specs.Moves.{with_step, revoked_view, is_revoked, is_drained, published_view, rest_from, IsOperator, AllDrained, HasNext};
ghost use Rattle.rm_table.specs.Answers.{AnswersDrain};

use crate::plays::{Drain, Publish, Revoke};
use crate::table::{number_at, token_at, tracker_at};
use crate::{RmSeat, RmTable};
use fw_base::{Kept, Numbered};
use rm_core::Heard;

impl<E: Numbered<Tag = B::Facts>, B: Kept> RmTable<E, B> {
    /// The operator, which holds the lock behind, takes a processor's token away, for the next publication.
    /// One store.
    pub fn revoke(&self, seat: &mut RmSeat<E, B>, processor: u32)
        requires table { seat.old.table_id ≡ self.now }
        requires operator { IsOperator seat.old.me.0 }
        requires above { 0 < processor }
        requires within { processor ≤ seat.old.me.0.count }
        requires behind { seat.old.me.0.behind ≡ true }
        requires unrevoked { is_revoked seat.old.me.0 processor ≡ false }
        requires room { seat.old.me.0.number < 2 ^ 64 - 1 }
        ensures table { seat.new.table_id ≡ seat.old.table_id }
        ensures step { seat.new.me
            ≡ (
              with_step (revoked_view seat.old.me.0 processor) (token_index seat.old.me.0.count processor)
                  (seat.old.me.0.number + 1),
              seat.old.me.1,
            ) }
    {
        let word = token_at(seat.processors, processor);
        let next = seat.number + 1;
        self.table
            .shared
            .store::<Revoke>(&mut seat.seat, word, next);
    }

    /// The operator looks whether a processor whose token it took away is out. Where it is, the operator has
    /// the processor's edition in hand. One load of that processor's tracker.
    pub fn drain(&self, seat: &mut RmSeat<E, B>, processor: u32) -> Heard
        requires table { seat.old.table_id ≡ self.now }
        requires operator { IsOperator seat.old.me.0 }
        requires above { 0 < processor }
        requires within { processor ≤ seat.old.me.0.count }
        requires revoked { is_revoked seat.old.me.0 processor ≡ true }
        requires undrained { is_drained seat.old.me.0 processor ≡ false }
        ensures table { seat.new.table_id ≡ seat.old.table_id }
        ensures step { AnswersDrain (meanings E.Numbered B.Kept) seat.old.me
            processor result seat.new.me }
    {
        seat.tells_processors();
        let word = tracker_at(processor);
        let found = self.table.shared.load::<Drain>(&mut seat.seat, word);
        if found % 2 == 0 {
            Heard::Drained
        } else {
            Heard::NotOut
        }
    }

    /// The operator, which has drained all processors and has the book, publishes the next number. The
    /// editions of all processors, in order, go back to their slots from the front of its hand. One store.
    pub fn publish(&self, seat: &mut RmSeat<E, B>)
        requires table { seat.old.table_id ≡ self.now }
        requires operator { IsOperator seat.old.me.0 }
        requires drained { AllDrained seat.old.me.0 }
        requires behind { seat.old.me.0.behind ≡ true }
        requires book { IsSome seat.old.me.0.book }
        requires room { seat.old.me.0.number < 2 ^ 64 - 1 }
        requires editions { HasNext (meanings E.Numbered B.Kept) seat.old.me.0 seat.old.me.1 }
        ensures table { seat.new.table_id ≡ seat.old.table_id }
        ensures step { seat.new.me
            ≡ (
              with_step (published_view (meanings E.Numbered B.Kept) seat.old.me.0
                  seat.old.me.1) number_index (seat.old.me.0.number + 1),
              rest_from seat.old.me.0.count seat.old.me.1,
            ) }
    {
        let next = seat.number + 1;
        self.table
            .shared
            .store::<Publish>(&mut seat.seat, number_at(), next);
        seat.number = next;
    }
}
