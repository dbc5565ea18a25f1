ghost use Rattle.std.specs.Prelude.{◌≡◌, ℕ, ◌+◌, ◌⊎◌, true, None, IsSome};
ghost use Rattle.rm_table.specs.Layout.{tracker_index, tracker_word};
ghost use Rattle.rm_table.specs.Meanings.{meanings};
ghost use Rattle.rm_table.specs.Moves.{with_step, raised_view, lowered_view, hand_left, HasEdition};
ghost use Rattle.rm_table.specs.Answers.{AnswersCheck, AnswersRegain};

use crate::plays::{Check, Lower, Raise, Regain};
use crate::table::{token_at, tracker_at};
use crate::{RmSeat, RmTable, Role};
use fw_base::{Kept, Numbered};
use rm_core::{Heard, Phase};

impl<E: Numbered<Tag = B::Facts>, B: Kept> RmTable<E, B> {
    /// The processor begins a section: it raises its tracker, which was even. One store of its own word.
    pub fn raise(&self, seat: &mut RmSeat<E, B>)
        requires table { seat.old.table_id ≡ self.now }
        requires processor { seat.old.me.0.role ≡ Role.Processor }
        requires out { seat.old.me.0.phase ≡ Phase.Out }
        ensures table { seat.new.table_id ≡ seat.old.table_id }
        ensures step { seat.new.me
            ≡ (
              with_step (raised_view seat.old.me.0) (tracker_index seat.old.me.0.place)
                  (tracker_word (seat.old.me.0.part.sections + 1) Phase.Raised),
              seat.old.me.1,
            ) }
    {
        let raised = seat.tracker + 1;
        self.table
            .shared
            .store::<Raise>(&mut seat.seat, tracker_at(seat.place), raised);
        seat.tracker = raised;
    }

    /// The processor, its tracker raised, reads its token. Where the token is held it is in, and has the
    /// edition of its slot in hand. One load of its own word.
    pub fn check(&self, seat: &mut RmSeat<E, B>) -> Heard
        requires table { seat.old.table_id ≡ self.now }
        requires processor { seat.old.me.0.role ≡ Role.Processor }
        requires raised { seat.old.me.0.phase ≡ Phase.Raised }
        ensures table { seat.new.table_id ≡ seat.old.table_id }
        ensures step { AnswersCheck (meanings E.Numbered B.Kept) seat.old.me result seat.new.me }
    {
        let word = token_at(seat.processors, seat.place);
        let found = self.table.shared.load::<Check>(&mut seat.seat, word);
        if found == 0 {
            Heard::Held
        } else {
            Heard::Revoked(found)
        }
    }

    /// The processor, which has no book, ends its section: it lowers its tracker, which was odd. If it was
    /// in, its edition goes back to its slot. One store of its own word.
    pub fn lower(&self, seat: &mut RmSeat<E, B>)
        requires table { seat.old.table_id ≡ self.now }
        requires processor { seat.old.me.0.role ≡ Role.Processor }
        requires begun { (seat.old.me.0.phase ≡ Phase.Raised) ⊎ (seat.old.me.0.phase ≡ Phase.In) }
        requires bookless { seat.old.me.0.book ≡ None }
        requires edition { seat.old.me.0.phase ≡ Phase.In
            → HasEdition (meanings E.Numbered B.Kept) seat.old.me.0 seat.old.me.1 }
        ensures table { seat.new.table_id ≡ seat.old.table_id }
        ensures step { seat.new.me
            ≡ (
              with_step (lowered_view seat.old.me.0) (tracker_index seat.old.me.0.place)
                  (tracker_word seat.old.me.0.part.sections Phase.Out),
              hand_left seat.old.me.0.phase seat.old.me.1,
            ) }
    {
        let lowered = seat.tracker.wrapping_add(1);
        self.table
            .shared
            .store::<Lower>(&mut seat.seat, tracker_at(seat.place), lowered);
        seat.tracker = lowered;
    }

    /// The processor, which is out, holds the lock behind and has read the number under it, takes its token
    /// again, and knows that number. One store of its own word.
    pub fn regain(&self, seat: &mut RmSeat<E, B>)
        requires table { seat.old.table_id ≡ self.now }
        requires processor { seat.old.me.0.role ≡ Role.Processor }
        requires out { seat.old.me.0.phase ≡ Phase.Out }
        requires behind { seat.old.me.0.behind ≡ true }
        requires read { IsSome seat.old.me.0.part.read }
        ensures table { seat.new.table_id ≡ seat.old.table_id }
        ensures step { AnswersRegain (meanings E.Numbered B.Kept) seat.old.me seat.new.me }
    {
        let word = token_at(seat.processors, seat.place);
        self.table.shared.store::<Regain>(&mut seat.seat, word, 0);
    }
}
