ghost use Rattle.std.specs.Prelude.{◌≡◌, ◌≢◌, ℕ, ◌*◌, ◌+◌, ◌-◌, ◌<◌, ◌≤◌, [], None, Some, true, false, length, slice_get, slice_index, slice_index_or, IsTrue, vec_len, vec_capacity};
ghost use Rattle.std.specs.Slots.{slots_items, slots_filled, slots_len, IsFull};
ghost use Rattle.rm_table.specs.Layout.{word_count, tracker_index};
ghost use Rattle.rm_table.specs.Meanings.{meanings};
ghost use Rattle.rm_table.specs.Moves.{AllJoined, NoneDrained};
ghost use Rattle.rm_table.specs.Ends.{ClosesWith};
ghost use Rattle.rm_table.specs.declared.padded_slot.Slot.TheVariants.{Edition, Book};

use crate::padded_slot::PaddedSlot;
use crate::table::tracker_at;
use crate::{RmSeat, RmTable, Role, Slot};
use fw_base::{Kept, Numbered};
use std::alloc::Global;

/// What a lock gives back at its end.
#[derive(Drop)]
pub struct Closed<E, B> {
    /// The book.
    pub book: B,
    /// The tracker of each processor, in order: twice the sections that it began, modulo 2^64.
    pub trackers: Vec<u64>,
    /// The edition of each processor, in order.
    pub editions: Vec<E>,
}

fn edition_in<E: Drop, B: Drop>(slot: PaddedSlot<E, B>) -> E
    requires { (e : E) × (slot ≡ Edition (Some e)) }
    ensures { slot ≡ Edition (Some result) }
{
    match slot.into_slot() {
        Slot::Edition(Some(edition)) => edition,
        Slot::Edition(None) | Slot::Book(_) => unreachable!(),
    }
}

fn book_in<E: Drop, B: Drop>(slot: PaddedSlot<E, B>) -> B
    requires { (b : B) × (slot ≡ Book (Some b)) }
    ensures { slot ≡ Book (Some result) }
{
    match slot.into_slot() {
        Slot::Book(Some(book)) => book,
        Slot::Book(None) | Slot::Edition(_) => unreachable!(),
    }
}

/// The trackers of all processors.
fn trackers_of<S>(
    closed: &atomic_table::Closed<S, Global>,
    processors: u32,
    mut trackers: Vec<u64>,
) -> Vec<u64>
    requires few { processors ≤ 64 }
    requires full { IsFull closed.now.words }
    requires size { slots_len closed.now.words ≡ word_count processors }
    requires empty { trackers.items ≡ [] }
    requires room { processors ≤ vec_capacity trackers }
    ensures count { vec_len result ≡ processors }
    ensures each { (j : ℕ) → j < processors
        → slice_get result.items j
        ≡ Some (slice_index (slots_items closed.now.words) (tracker_index (j + 1))) }
{
    for place in 1..processors + 1 {
        trackers.push_reserved(closed.word(tracker_at(place)));
    }
    trackers
}

/// Takes the editions of all processors out of their slots.
fn take_editions<E: Drop, B: Drop>(
    closed: &mut atomic_table::Closed<PaddedSlot<E, B>, Global>,
    processors: u32,
    mut editions: Vec<E>,
) -> Vec<E>
    requires few { processors ≤ 64 }
    requires size { slots_len closed.old.slots ≡ processors + 1 }
    requires filled { (k : ℕ) → 0 < k → k ≤ processors
        → slice_index_or (slots_filled closed.old.slots) k false ≡ true }
    requires editions { (k : ℕ) → 0 < k → k ≤ processors
        → (e : E) × (slice_get (slots_items closed.old.slots) k ≡ Some (Edition (Some e))) }
    requires empty { editions.items ≡ [] }
    requires room { processors ≤ vec_capacity editions }
    ensures count { vec_len result ≡ processors }
    ensures each { (j : ℕ) (e : E) → slice_get result.items j ≡ Some e
        → slice_get (slots_items closed.old.slots) (j + 1) ≡ Some (Edition (Some e)) }
    ensures taken { (k : ℕ) → 0 < k → k ≤ processors
        → slice_index_or (slots_filled closed.new.slots) k false ≡ false }
    ensures first { slice_index_or (slots_filled closed.new.slots) 0 false
        ≡ slice_index_or (slots_filled closed.old.slots) 0 false }
    ensures size { slots_len closed.new.slots ≡ slots_len closed.old.slots }
    ensures items { slots_items closed.new.slots ≡ slots_items closed.old.slots }
{
    for place in 1..processors + 1 {
        editions.push_reserved(edition_in(closed.take(place as usize)));
    }
    editions
}

impl<E: Numbered<Tag = B::Facts>, B: Kept> RmTable<E, B> {
    /// Ends the lock, once every seat was joined into the operator's and every slot is at home. Takes no
    /// memory.
    pub fn close(self, operator: RmSeat<E, B>) -> Closed<E, B>
        requires table { operator.table_id ≡ self }
        requires operator { operator.me.0.role ≡ Role.Operator }
        requires joined { AllJoined operator.me.0 }
        requires undrained { NoneDrained operator.me.0 }
        requires bookless { operator.me.0.book ≡ None }
        ensures { ClosesWith (meanings E.Numbered B.Kept) operator.me.0
            result.book result.trackers.items result.editions.items }
    {
        let RmTable {
            table,
            processors,
            trackers,
            editions,
        } = self;
        let RmSeat {
            seat,
            processors: _,
            place: _,
            number: _,
            tracker: _,
        } = operator;
        let mut closed = table.close_with(seat);
        let trackers = trackers_of(&closed, processors, trackers);
        let editions = take_editions(&mut closed, processors, editions);
        let book = book_in(closed.take(0));
        closed.free();
        Closed {
            book,
            trackers,
            editions,
        }
    }
}
