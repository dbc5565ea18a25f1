ghost use Rattle.std.specs.Prelude.{◌≡◌, Option};
ghost use Rattle.rm_table.specs.declared.padded_slot.Slot.TheVariants.{Edition, Book};

use crossbeam_utils::CachePadded;
use std::marker::Model;
use std::mem;

/// What a slot of the table holds: slot 0 the book, slot i the edition of processor i, or nothing while its
/// value is out.
#[derive(Drop)]
pub enum Slot<E, B> {
    Edition(Option<E>),
    Book(Option<B>),
}

/// A slot with at least 64 unused bytes between its value and that of any other slot: a reader takes its
/// edition out of its slot and puts it back, and on a shared cache line it would wait for other readers.
/// Contracts see what the slot holds.
#[derive(Drop)]
pub struct PaddedSlot<E, B> {
    padded: CachePadded<Slot<E, B>>,
}

impl<E, B> Model for PaddedSlot<E, B> {
    ghost use Rattle.crossbeam_utils.specs.Padded.{padded_value};
    ghost use Rattle.rm_table.specs.declared.padded_slot.Slot.{Slot};

    ghost Value = { Slot E B };

    ghost view = { λ s. padded_value s.padded };
}

impl<E, B> PaddedSlot<E, B> {
    pub(crate) fn new(slot: Slot<E, B>) -> PaddedSlot<E, B>
        ensures { result ≡ slot }
    {
        PaddedSlot {
            padded: CachePadded::new(slot),
        }
    }

    pub(crate) fn into_slot(self) -> Slot<E, B>
        ensures { result ≡ self }
    {
        let PaddedSlot { padded } = self;
        padded.into_inner()
    }

    /// Puts an edition into its slot, or nothing, and answers what the slot held. Moves two editions at
    /// most, however large a book is.
    pub(crate) fn replace_edition(&mut self, new: Option<E>) -> Option<E>
        requires { (old : Option E) × (self.old ≡ Edition old) }
        ensures was { self.old ≡ Edition result }
        ensures now { self.new ≡ Edition new }
    {
        match &mut *self.padded {
            Slot::Edition(edition) => mem::replace(edition, new),
            Slot::Book(_) => unreachable!(),
        }
    }

    /// Puts the book into its slot, or nothing, and answers what the slot held.
    pub(crate) fn replace_book(&mut self, new: Option<B>) -> Option<B>
        requires { (old : Option B) × (self.old ≡ Book old) }
        ensures was { self.old ≡ Book result }
        ensures now { self.new ≡ Book new }
    {
        match &mut *self.padded {
            Slot::Book(book) => mem::replace(book, new),
            Slot::Edition(_) => unreachable!(),
        }
    }
}
