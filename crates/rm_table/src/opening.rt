ghost use Rattle.std.specs.Prelude.{◌≡◌, ℕ, ◌*◌, ◌+◌, ◌<◌, ◌≤◌, [], Some, IfOk, slice_get, slice_set, replicate, vec_len, vec_capacity, length};
ghost use Rattle.rm_table.specs.Layout.{word_count};
ghost use Rattle.rm_table.specs.Meanings.{meanings};
ghost use Rattle.rm_table.specs.Ends.{first_words, first_slots, first_view, OpensTable};

use crate::padded_slot::PaddedSlot;
use crate::rule::Opening;
use crate::table::{index_at, number_at};
use crate::{RmSeat, RmTable, Slot};
use atomic_table::Table;
use fw_base::{Kept, Numbered, OutOfMemory};
use std::alloc::{AllocError, Global};
use std::snapshot::Snapshot;

/// A new table, with the opening seat, which becomes the operator's.
#[derive(Drop)]
pub struct OpenTable<E: Numbered<Tag = B::Facts>, B: Kept> {
    pub table: RmTable<E, B>,
    pub seat: RmSeat<E, B>,
}

/// The words at the opening.
fn words_at_opening(alloc: Global, processors: u32, number: u64) -> Result<Vec<u64>, AllocError>
    requires { processors ≤ 64 }
    ensures { IfOk result (λ words. words.items ≡ first_words processors number) }
{
    let mut words = vec![in alloc; 0u64; index_at(2 * processors + 3)]?;
    words[number_at()] = number;
    Ok(words)
}

/// The slots at the opening: the book, and each edition.
fn slots_at_opening<E: Drop, B: Drop>(
    alloc: Global,
    editions: Vec<E>,
    book: B,
) -> Result<Vec<PaddedSlot<E, B>>, AllocError>
    requires { vec_len editions ≤ 64 }
    ensures { IfOk result (λ slots. slots.items ≡ first_slots book editions.items) }
{
    let mut slots = Vec::with_capacity(alloc, editions.len() + 1)?;
    slots.push(PaddedSlot::new(Slot::Book(Some(book))))?;
    for edition in editions {
        slots.push(PaddedSlot::new(Slot::Edition(Some(edition))))?;
    }
    Ok(slots)
}

impl<E: Numbered<Tag = B::Facts>, B: Kept> RmTable<E, B> {
    /// A table for as many processors as there are editions, 1 to 64. All editions have the book's current
    /// number and tag, and one name. It also takes the memory that `close` needs.
    pub fn open(alloc: Global, editions: Vec<E>, book: B) -> Result<OpenTable<E, B>, OutOfMemory>
        requires most { vec_len editions ≤ 64 }
        requires opens { (edition : E) × (slice_get editions.items 0 ≡ Some edition)
            × OpensTable (meanings E.Numbered B.Kept) editions.items edition book }
        ensures table { IfOk result (λ o. o.seat.table_id ≡ o.table) }
        ensures seat { IfOk result (λ o. (edition : E) → slice_get editions.items 0 ≡ Some edition
            → o.seat.me
            ≡ (
              first_view (meanings E.Numbered B.Kept) (vec_len editions) edition book,
              [],
            )) }
    {
        let processors = editions.len() as u32;
        let number = book.current();
        let words = words_at_opening(alloc, processors, number)?;
        let trackers = Vec::with_capacity(alloc, processors as usize)?;
        let room = Vec::with_capacity(alloc, processors as usize)?;
        let about = Opening {
            processors: u64::from(processors),
            edition: Snapshot::of(&editions[0]),
            book: Snapshot::of(&book),
        };
        let slots = slots_at_opening(alloc, editions, book)?;
        match Table::new(alloc, words.as_slice(), slots, &about) {
            Ok((table, seat)) => Ok(OpenTable {
                table: RmTable {
                    table,
                    processors,
                    trackers,
                    editions: room,
                },
                seat: RmSeat {
                    seat,
                    processors,
                    place: processors + 1,
                    number,
                    tracker: 0,
                },
            }),
            Err(_) => Err(OutOfMemory),
        }
    }
}
