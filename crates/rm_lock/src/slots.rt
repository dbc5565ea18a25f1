ghost use Rattle.std.specs.Prelude.{◌≡◌, ◌∷◌, Some, None};
ghost use Rattle.atomic_table.specs.Table.{rest};
ghost use Rattle.rm_table.specs.declared.padded_slot.Slot.TheVariants.{Edition, Book};

use fw_base::{Kept, Numbered};
use rm_table::{RmSeat, RmTable};

/// Takes the edition out of the processor's slot, which lies on top of the hand.
pub(crate) fn take_edition<E: Numbered<Tag = B::Facts>, B: Kept>(
    table: &RmTable<E, B>,
    seat: &mut RmSeat<E, B>,
    place: u32,
) -> E
    requires table { seat.old.table_id ≡ table.now }
    requires on_top { (e : E) × (seat.old.me.1 ≡ (place, Edition (Some e)) ∷ rest seat.old.me.1) }
    ensures table { seat.new.table_id ≡ seat.old.table_id }
    ensures was { seat.old.me.1 ≡ (place, Edition (Some result)) ∷ rest seat.old.me.1 }
    ensures now { seat.new.me ≡ (seat.old.me.0, (place, Edition None) ∷ rest seat.old.me.1) }
{
    match table.exchange_edition(seat, place, None) {
        Some(edition) => edition,
        None => unreachable!(),
    }
}

/// Puts an edition into the processor's slot, which lies empty on top of the hand.
pub(crate) fn put_edition<E: Numbered<Tag = B::Facts>, B: Kept>(
    table: &RmTable<E, B>,
    seat: &mut RmSeat<E, B>,
    place: u32,
    edition: E,
)
    requires table { seat.old.table_id ≡ table.now }
    requires on_top { seat.old.me.1 ≡ (place, Edition None) ∷ rest seat.old.me.1 }
    ensures table { seat.new.table_id ≡ seat.old.table_id }
    ensures now { seat.new.me
        ≡ (seat.old.me.0, (place, Edition (Some edition)) ∷ rest seat.old.me.1) }
{
    let _ = table.exchange_edition(seat, place, Some(edition));
}

/// Takes the book out of its slot, which lies on top of the hand.
pub(crate) fn take_out_book<E: Numbered<Tag = B::Facts>, B: Kept>(
    table: &RmTable<E, B>,
    seat: &mut RmSeat<E, B>,
) -> B
    requires table { seat.old.table_id ≡ table.now }
    requires on_top { (b : B) × (seat.old.me.1 ≡ (0, Book (Some b)) ∷ rest seat.old.me.1) }
    ensures table { seat.new.table_id ≡ seat.old.table_id }
    ensures was { seat.old.me.1 ≡ (0, Book (Some result)) ∷ rest seat.old.me.1 }
    ensures now { seat.new.me ≡ (seat.old.me.0, (0, Book None) ∷ rest seat.old.me.1) }
{
    match table.exchange_book(seat, None) {
        Some(book) => book,
        None => unreachable!(),
    }
}

/// Puts the book into its slot, which lies empty on top of the hand.
pub(crate) fn put_book<E: Numbered<Tag = B::Facts>, B: Kept>(
    table: &RmTable<E, B>,
    seat: &mut RmSeat<E, B>,
    book: B,
)
    requires table { seat.old.table_id ≡ table.now }
    requires on_top { seat.old.me.1 ≡ (0, Book None) ∷ rest seat.old.me.1 }
    ensures table { seat.new.table_id ≡ seat.old.table_id }
    ensures now { seat.new.me ≡ (seat.old.me.0, (0, Book (Some book)) ∷ rest seat.old.me.1) }
{
    let _ = table.exchange_book(seat, Some(book));
}
