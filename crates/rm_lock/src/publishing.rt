ghost use Rattle.std.specs.Prelude.{◌≡◌, ℕ, ◌+◌, ◌-◌, ◌^◌, ◌<◌, ◌≤◌, true, false, Some, None, List, [], ◌∷◌, ◌++◌, length, vec_len, slice_get};
ghost use Rattle.atomic_table.specs.Table.{rest};
ghost use Rattle.rm_table.specs.Meanings.{meanings};
ghost use Rattle.rm_table.specs.Moves.{with_step, book_taken, FoundBy, IsOperator, NoneRevoked, NoneDrained, AllRevoked, AllDrained, editions_from};
ghost use Rattle.rm_table.specs.declared.padded_slot.Slot.TheVariants.{Edition, Book};
ghost use Rattle.rm_table.specs.Layout.{book_index};
ghost use Rattle.rm_lock.specs.Calls.{AreNext, PublishesEditions, revocations};
ghost use Rattle.rm_lock.specs.Writes.{unmarked_view, HasFoundAll, IsWriting};

use crate::slots::{put_book, put_edition, take_edition, take_out_book};
use crate::waits;
use fw_base::{Kept, Numbered};
use rm_table::{RmSeat, RmTable};
use std::mem;
use std::sync::Wait;
use std::thread::yield_now;

/// Revokes the token of each processor.
pub(crate) fn revoke_all<E: Numbered<Tag = B::Facts>, B: Kept>(
    table: &RmTable<E, B>,
    seat: &mut RmSeat<E, B>,
    processors: u32,
)
    requires table { seat.old.table_id ≡ table.now }
    requires operator { IsOperator seat.old.me.0 }
    requires count { seat.old.me.0.count ≡ processors }
    requires few { processors ≤ 64 }
    requires behind { seat.old.me.0.behind ≡ true }
    requires room { seat.old.me.0.number < 2 ^ 64 - 1 }
    requires unrevoked { NoneRevoked seat.old.me.0 }
    requires size { length seat.old.me.0.revoked ≡ processors + 1 }
    ensures table { seat.new.table_id ≡ seat.old.table_id }
    ensures revoked { AllRevoked seat.new.me.0 }
    ensures same { unmarked_view seat.new.me.0 ≡ unmarked_view seat.old.me.0 }
    ensures drained { seat.new.me.0.drained ≡ seat.old.me.0.drained }
    ensures steps { seat.new.me.0.steps ≡ seat.old.me.0.steps ++ revocations seat.old.me.0 }
    ensures hand { seat.new.me.1 ≡ seat.old.me.1 }
{
    for processor in 1..processors + 1 {
        table.revoke(seat, processor);
    }
}

/// Waits for each processor, the last first, so that their editions lie in order in the hand.
pub(crate) fn drain_all<E: Numbered<Tag = B::Facts>, B: Kept, R: Wait>(
    table: &RmTable<E, B>,
    rt: &R,
    seat: &mut RmSeat<E, B>,
    processors: u32,
)
    requires table { seat.old.table_id ≡ table.now }
    requires operator { IsOperator seat.old.me.0 }
    requires count { seat.old.me.0.count ≡ processors }
    requires few { processors ≤ 64 }
    requires revoked { AllRevoked seat.old.me.0 }
    requires undrained { NoneDrained seat.old.me.0 }
    requires size { length seat.old.me.0.drained ≡ processors + 1 }
    requires hand { seat.old.me.1 ≡ [] }
    ensures table { seat.new.table_id ≡ seat.old.table_id }
    ensures found { HasFoundAll (meanings E.Numbered B.Kept) seat.old.me seat.new.me }
{
    for done in 0..processors {
        waits::drain(table, rt, seat, processors - done);
    }
}

/// Puts an edition into the processor's slot, which lies on top of the hand, and the slot behind the others.
/// What the slot held stands in place of the new edition.
fn exchange_one<E: Numbered<Tag = B::Facts>, B: Kept>(
    table: &RmTable<E, B>,
    seat: &mut RmSeat<E, B>,
    place: u32,
    edition: &mut E,
)
    requires table { seat.old.table_id ≡ table.now }
    requires on_top { (e : E) × (seat.old.me.1 ≡ (place, Edition (Some e)) ∷ rest seat.old.me.1) }
    ensures table { seat.new.table_id ≡ seat.old.table_id }
    ensures was { seat.old.me.1 ≡ (place, Edition (Some edition.new)) ∷ rest seat.old.me.1 }
    ensures now { seat.new.me
        ≡ (seat.old.me.0, rest seat.old.me.1 ++ (place, Edition (Some edition.old)) ∷ []) }
{
    let old = take_edition(table, seat, place);
    let new = mem::replace(edition, old);
    put_edition(table, seat, place, new);
    seat.turn();
}

/// Exchanges the editions of all processors, which are in the hand in order.
pub(crate) fn exchange_all<E: Numbered<Tag = B::Facts>, B: Kept>(
    table: &RmTable<E, B>,
    seat: &mut RmSeat<E, B>,
    editions: &mut Vec<E>,
)
    requires table { seat.old.table_id ≡ table.now }
    requires few { vec_len editions.old ≤ 64 }
    requires hand { (olds : List E) × (length olds ≡ vec_len editions.old)
        × (seat.old.me.1 ≡ editions_from 1 olds []) }
    ensures table { seat.new.table_id ≡ seat.old.table_id }
    ensures was { seat.old.me.1 ≡ editions_from 1 editions.new.items [] }
    ensures count { vec_len editions.new ≡ vec_len editions.old }
    ensures now { seat.new.me ≡ (seat.old.me.0, editions_from 1 editions.old.items []) }
{
    for index in 0..editions.len() {
        exchange_one(table, seat, index as u32 + 1, &mut editions[index]);
    }
}

/// Takes the book, which is free, since all processors are drained, and takes it out of its slot.
fn take_free_book<E: Numbered<Tag = B::Facts>, B: Kept>(
    table: &RmTable<E, B>,
    seat: &mut RmSeat<E, B>,
) -> B
    requires table { seat.old.table_id ≡ table.now }
    requires operator { IsOperator seat.old.me.0 }
    requires drained { AllDrained seat.old.me.0 }
    requires bookless { seat.old.me.0.book ≡ None }
    ensures table { seat.new.table_id ≡ seat.old.table_id }
    ensures taken { (seat.new.me
        ≡ (with_step (book_taken seat.old.me.0 result) book_index 0, (0, Book None) ∷ seat.old.me.1))
        × FoundBy (meanings E.Numbered B.Kept) seat.old.me.0 result }
{
    let _ = table.take_book(seat);
    take_out_book(table, seat)
}

/// Takes the book, lets it take the facts in, publishes, and gives book and lock back.
pub(crate) fn publish_book<E: Numbered<Tag = B::Facts>, B: Kept>(
    table: &RmTable<E, B>,
    seat: &mut RmSeat<E, B>,
    facts: B::Facts,
)
    requires table { seat.old.table_id ≡ table.now }
    requires writing { IsWriting seat.old.me.0 }
    requires editions { (editions : List E) × (length editions ≡ seat.old.me.0.count)
        × (seat.old.me.1 ≡ editions_from 1 editions [])
        × AreNext (meanings E.Numbered B.Kept) seat.old.me.0.number editions facts }
    requires facts { B.facts_number facts ≡ seat.old.me.0.number + 1 }
    ensures table { seat.new.table_id ≡ seat.old.table_id }
    ensures hand { seat.new.me.1 ≡ [] }
    ensures published { (editions : List E) → length editions ≡ seat.old.me.0.count
        → seat.old.me.1 ≡ editions_from 1 editions []
        → AreNext (meanings E.Numbered B.Kept) seat.old.me.0.number editions facts
        → PublishesEditions (meanings E.Numbered B.Kept)
        seat.old.me.0 editions facts seat.new.me.0 }
{
    let mut book = take_free_book(table, seat);
    book.publish(facts);
    put_book(table, seat, book);
    seat.turn();
    table.publish(seat);
    table.give_book(seat);
    table.give_back(seat);
    // Readers that it revoked wait for the lock behind: they come before the operator's next write.
    yield_now();
}
