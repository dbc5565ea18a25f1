ghost use Rattle.std.specs.Prelude.{◌≡◌, ℕ, ◌<◌, ◌≤◌, [], None, Some, true, false, Option, ◌⊎◌, slice_get, IsSome};
ghost use Rattle.rm_table.specs.Moves.{KeepsPart, split_off, right_of, kept_at, receipt_view, joined_view, informed_view, joined_by, spent_view, AllSplit};
ghost use Rattle.rm_table.specs.Rests.{IsIdle, IsReceipt};

use crate::rule::LockView;
use crate::{RmSeat, RmTable, Role};
use atomic_table::{Join, Split};
use fw_base::{Kept, Numbered};
use rm_core::Phase;
use std::marker::{Brand, PhantomData};

/// The place whose seat is split off. Each call of a program picks it.
pub(crate) trait Pick {
    ghost place: { ℕ };
}

impl Pick for Brand {
    ghost place = { 0 };
}

/// The tracker of a processor that is out and has begun no section.
const NO_SECTION: u64 = 0;

/// How the opening seat is cut.
pub(crate) struct Cut<P: Pick>(PhantomData<P>);

impl<E: Numbered<Tag = B::Facts>, B: Kept, P: Pick> Split<LockView<E, B>> for Cut<P> {
    ghost left = { λ v. split_off v P.place };

    ghost right = { λ v. right_of v P.place (kept_at v P.place) };
}

/// How a receipt's seat is cut off the operator's.
pub(crate) struct Copied;

impl<E: Numbered<Tag = B::Facts>, B: Kept> Split<LockView<E, B>> for Copied {
    ghost left = { λ v. v };

    ghost right = { λ v. receipt_view v };
}

/// How a processor's seat is joined into the operator's, and a receipt's into a processor's.
pub(crate) struct Glue;

impl<E: Numbered<Tag = B::Facts>, B: Kept> Join<LockView<E, B>> for Glue {
    ghost both = { λ v w. joined_by w.role v w };

    ghost spent = { spent_view };
}

impl<E: Numbered<Tag = B::Facts>, B: Kept> RmTable<E, B> {
    fn cut_seat<P: Pick>(&self, seat: &mut RmSeat<E, B>, place: u32) -> RmSeat<E, B>
        requires picked { P.place ≡ place }
        requires table { seat.old.table_id ≡ self.now }
        requires operator { seat.old.me.0.role ≡ Role.Operator }
        requires opening { seat.old.me.0.closing ≡ false }
        requires above { 0 < place }
        requires within { place ≤ seat.old.me.0.count }
        requires kept { KeepsPart seat.old.me.0 place }
        ensures table { (seat.new.table_id ≡ seat.old.table_id)
            × (result.table_id ≡ seat.old.table_id) }
        ensures left { seat.new.me ≡ (split_off seat.old.me.0 place, seat.old.me.1) }
        ensures right { result.me
            ≡ (right_of seat.old.me.0 place (kept_at seat.old.me.0 place), []) }
    {
        let right = self.table.shared.split_seat::<Cut<P>>(&mut seat.seat);
        RmSeat {
            seat: right,
            processors: seat.processors,
            place,
            number: 0,
            tracker: NO_SECTION,
        }
    }

    fn cut_receipt(&self, seat: &mut RmSeat<E, B>) -> RmSeat<E, B>
        requires table { seat.old.table_id ≡ self.now }
        requires operator { seat.old.me.0.role ≡ Role.Operator }
        ensures table { (seat.new.table_id ≡ seat.old.table_id)
            × (result.table_id ≡ seat.old.table_id) }
        ensures left { seat.new.me ≡ seat.old.me }
        ensures right { result.me ≡ (receipt_view seat.old.me.0, []) }
    {
        let right = self.table.shared.split_seat::<Copied>(&mut seat.seat);
        RmSeat {
            seat: right,
            processors: seat.processors,
            place: 0,
            number: seat.number,
            tracker: 0,
        }
    }

    /// Splits the seat of the processor at that place off the opening seat, once, or at place 0 a receipt's
    /// seat off the operator's, at any time: it has what the operator has published so far. One load.
    pub fn split_seat(&self, seat: &mut RmSeat<E, B>, place: u32) -> RmSeat<E, B>
        requires table { seat.old.table_id ≡ self.now }
        requires operator { seat.old.me.0.role ≡ Role.Operator }
        requires opening { 0 < place → seat.old.me.0.closing ≡ false }
        requires within { place ≤ seat.old.me.0.count }
        requires kept { 0 < place → KeepsPart seat.old.me.0 place }
        ensures table { (seat.new.table_id ≡ seat.old.table_id)
            × (result.table_id ≡ seat.old.table_id) }
        ensures left { 0 < place → seat.new.me ≡ (split_off seat.old.me.0 place, seat.old.me.1) }
        ensures right { 0 < place
            → result.me ≡ (right_of seat.old.me.0 place (kept_at seat.old.me.0 place), []) }
        ensures operator { place ≡ 0 → seat.new.me ≡ seat.old.me }
        ensures receipt { place ≡ 0 → result.me ≡ (receipt_view seat.old.me.0, []) }
    {
        if place == 0 {
            self.cut_receipt(seat)
        } else {
            self.cut_seat::<Brand>(seat, place)
        }
    }

    /// Joins the seat of a processor that is out, holds neither lock and has no slot in hand into the
    /// operator's, after every place was split off, or a receipt's seat into a processor's at any time:
    /// the processor has then seen what the receipt has. One load.
    pub fn join_seat(&self, into: &mut RmSeat<E, B>, spent: RmSeat<E, B>)
        requires table { into.old.table_id ≡ self.now }
        requires same { spent.table_id ≡ self.now }
        requires pair { ((into.old.me.0.role ≡ Role.Operator) × IsIdle spent.me.0 spent.me.1)
            ⊎ ((into.old.me.0.role ≡ Role.Processor) × IsReceipt spent.me.0 spent.me.1) }
        requires split { into.old.me.0.role ≡ Role.Operator
            → (into.old.me.0.closing ≡ true) ⊎ AllSplit into.old.me.0 }
        ensures table { into.new.table_id ≡ into.old.table_id }
        ensures both { into.old.me.0.role ≡ Role.Operator
            → into.new.me ≡ (joined_view into.old.me.0 spent.me.0, into.old.me.1) }
        ensures heard { into.old.me.0.role ≡ Role.Processor
            → into.new.me ≡ (informed_view into.old.me.0 spent.me.0, into.old.me.1) }
    {
        let RmSeat {
            seat,
            processors: _,
            place: _,
            number: _,
            tracker: _,
        } = spent;
        self.table.shared.join_seat::<Glue>(&mut into.seat, seat);
    }
}
