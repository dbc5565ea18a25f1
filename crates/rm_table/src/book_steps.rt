ghost use Rattle.std.specs.Prelude.{◌≡◌, ℕ, ◌∷◌, Option, Some, None};
ghost use Rattle.atomic_table.specs.Table.{rest, turned};
ghost use Rattle.rm_table.specs.Layout.{book_index};
ghost use Rattle.rm_table.specs.Meanings.{meanings};
ghost use Rattle.rm_table.specs.Moves.{with_step, book_given, IsWorking, HasBook, AllDrained};
ghost use Rattle.rm_table.specs.Answers.{AnswersBookTry};
ghost use Rattle.rm_table.specs.declared.padded_slot.Slot.TheVariants.{Edition, Book};

use crate::padded_slot::PaddedSlot;
use crate::plays::{GiveBook, TakeBook};
use crate::rule::{LockRule, LockView, Opening};
use crate::table::book_at;
use crate::{RmSeat, RmTable, Role, Tried};
use atomic_table::{Seat, Shared};
use fw_base::{Kept, Numbered};
use rm_core::Phase;

type SharedTable<E, B> = Shared<PaddedSlot<E, B>, LockView<E, B>, Opening<E, B>, LockRule>;

/// Puts an edition, or nothing, into that slot, which lies on top of the seat's hand.
fn replace_edition_at<E: Numbered<Tag = B::Facts>, B: Kept>(
    table: &SharedTable<E, B>,
    seat: &mut Seat<PaddedSlot<E, B>, LockView<E, B>>,
    slot: usize,
    new: Option<E>,
) -> Option<E>
    requires table { seat.old.table_id ≡ table.now.table_id }
    requires on_top { (old : Option E)
        × (seat.old.me.1 ≡ (slot, Edition old) ∷ rest seat.old.me.1) }
    ensures same { (seat.new.table_id ≡ seat.old.table_id) × (seat.new.id ≡ seat.old.id) }
    ensures was { seat.old.me.1 ≡ (slot, Edition result) ∷ rest seat.old.me.1 }
    ensures now { seat.new.me ≡ (seat.old.me.0, (slot, Edition new) ∷ rest seat.old.me.1) }
{
    seat.slot_mut(table, slot).replace_edition(new)
}

/// Puts the book, or nothing, into its slot, which lies on top of the seat's hand.
fn replace_book_at<E: Numbered<Tag = B::Facts>, B: Kept>(
    table: &SharedTable<E, B>,
    seat: &mut Seat<PaddedSlot<E, B>, LockView<E, B>>,
    new: Option<B>,
) -> Option<B>
    requires table { seat.old.table_id ≡ table.now.table_id }
    requires on_top { (old : Option B) × (seat.old.me.1 ≡ (0, Book old) ∷ rest seat.old.me.1) }
    ensures same { (seat.new.table_id ≡ seat.old.table_id) × (seat.new.id ≡ seat.old.id) }
    ensures was { seat.old.me.1 ≡ (0, Book result) ∷ rest seat.old.me.1 }
    ensures now { seat.new.me ≡ (seat.old.me.0, (0, Book new) ∷ rest seat.old.me.1) }
{
    seat.slot_mut(table, 0).replace_book(new)
}

impl<E: Numbered<Tag = B::Facts>, B: Kept> RmTable<E, B> {
    /// A processor that is in, or the operator, tries once to take the book. Where another has it nothing
    /// changes. Once all processors are drained, the operator's try succeeds. One compare-and-exchange.
    pub fn take_book(&self, seat: &mut RmSeat<E, B>) -> Tried
        requires table { seat.old.table_id ≡ self.now }
        requires working { IsWorking seat.old.me.0 }
        requires inside { seat.old.me.0.role ≡ Role.Processor → seat.old.me.0.phase ≡ Phase.In }
        ensures table { seat.new.table_id ≡ seat.old.table_id }
        ensures step { AnswersBookTry (meanings E.Numbered B.Kept) seat.old.me result seat.new.me }
        ensures free { seat.old.me.0.role ≡ Role.Operator → AllDrained seat.old.me.0
            → seat.old.me.0.book ≡ None → result ≡ Tried.Taken }
    {
        let place = u64::from(seat.place);
        let found = self
            .table
            .shared
            .compare_exchange::<TakeBook>(&mut seat.seat, book_at(), 0, place);
        if found == 0 {
            Tried::Taken
        } else {
            Tried::HeldBy(found as u32)
        }
    }

    /// Who has the book gives it back. It lies on top of the hand: with number, tag and all lists but the
    /// holder's own as taken, or, by an operator that has published since, with that publication taken in.
    /// One store.
    pub fn give_book(&self, seat: &mut RmSeat<E, B>)
        requires table { seat.old.table_id ≡ self.now }
        requires working { IsWorking seat.old.me.0 }
        requires book { HasBook (meanings E.Numbered B.Kept) seat.old.me.0 seat.old.me.1 }
        ensures table { seat.new.table_id ≡ seat.old.table_id }
        ensures step { (book : B) → seat.old.me.1 ≡ (0, Book (Some book)) ∷ rest seat.old.me.1
            → seat.new.me
            ≡ (
              with_step (book_given (meanings E.Numbered B.Kept) seat.old.me.0 book) book_index 0,
              rest seat.old.me.1,
            ) }
    {
        self.table
            .shared
            .store::<GiveBook>(&mut seat.seat, book_at(), 0);
    }

    /// Puts an edition into the processor's slot, or nothing, and answers what it held. The slot lies on top
    /// of the hand. No step on a word, and no bytes are moved but those of the two editions.
    pub fn exchange_edition(
        &self,
        seat: &mut RmSeat<E, B>,
        processor: u32,
        new: Option<E>,
    ) -> Option<E>
        requires table { seat.old.table_id ≡ self.now }
        requires on_top { (old : Option E)
            × (seat.old.me.1 ≡ (processor, Edition old) ∷ rest seat.old.me.1) }
        ensures table { seat.new.table_id ≡ seat.old.table_id }
        ensures was { seat.old.me.1 ≡ (processor, Edition result) ∷ rest seat.old.me.1 }
        ensures now { seat.new.me ≡ (seat.old.me.0, (processor, Edition new) ∷ rest seat.old.me.1) }
    {
        replace_edition_at(&self.table.shared, &mut seat.seat, processor as usize, new)
    }

    /// Puts the book into its slot, or nothing, and answers what it held. The slot lies on top of the hand.
    /// No step on a word.
    pub fn exchange_book(&self, seat: &mut RmSeat<E, B>, new: Option<B>) -> Option<B>
        requires table { seat.old.table_id ≡ self.now }
        requires on_top { (old : Option B) × (seat.old.me.1 ≡ (0, Book old) ∷ rest seat.old.me.1) }
        ensures table { seat.new.table_id ≡ seat.old.table_id }
        ensures was { seat.old.me.1 ≡ (0, Book result) ∷ rest seat.old.me.1 }
        ensures now { seat.new.me ≡ (seat.old.me.0, (0, Book new) ∷ rest seat.old.me.1) }
    {
        replace_book_at(&self.table.shared, &mut seat.seat, new)
    }
}

impl<E: Numbered<Tag = B::Facts>, B: Kept> RmSeat<E, B> {
    /// The slot on top of the hand goes behind the others.
    pub fn turn(&mut self)
        ensures table { self.new.table_id ≡ self.old.table_id }
        ensures turned { self.new.me ≡ (self.old.me.0, turned self.old.me.1) }
    {
        self.seat.turn();
    }
}
