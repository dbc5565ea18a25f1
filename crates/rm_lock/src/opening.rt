ghost use Rattle.std.specs.Prelude.{◌≡◌, ℕ, ◌+◌, ◌<◌, ◌≤◌, [], Some, None, IfOk, vec_len, slice_get};
ghost use Rattle.rm_table.specs.declared.part.Part.{Part};
ghost use Rattle.rm_table.specs.Meanings.{meanings, values_from};
ghost use Rattle.rm_table.specs.Ends.{OpensTable};
ghost use Rattle.rm_table.specs.Rests.{IsOpening, IsAtRest};
ghost use Rattle.rm_lock.specs.Ends.{OpensAs, unkept_view, new_token};

use crate::{Opened, Operator, Processor, RmLock};
use fw_base::{Kept, Numbered, OutOfMemory};
use rm_table::{OpenTable, RmSeat, RmTable};
use std::alloc::{AllocError, Global};

/// Splits the seats of all processors off the opening seat.
fn split_all<E: Numbered<Tag = B::Facts>, B: Kept>(
    alloc: Global,
    table: &RmTable<E, B>,
    seat: &mut RmSeat<E, B>,
    processors: u32,
    number: u64,
) -> Result<Vec<Processor<E, B>>, AllocError>
    requires table { seat.old.table_id ≡ table.now }
    requires count { seat.old.me.0.count ≡ processors }
    requires few { processors ≤ 64 }
    requires opening { (parts : ℕ → Part E E.Label B.Item)
        × IsOpening 1 parts seat.old.me.0 seat.old.me.1
        × ((k : ℕ) → ((parts k).held ≡ number) × ((parts k).pairs ≡ [])
        × ((parts k).refusal ≡ None)) }
    ensures table { seat.new.table_id ≡ seat.old.table_id }
    ensures at_rest { IfOk result (λ _. IsAtRest seat.new.me.0 seat.new.me.1) }
    ensures same { IfOk result (λ _. unkept_view seat.new.me.0 ≡ unkept_view seat.old.me.0) }
    ensures tokens { IfOk result (λ ps. (parts : ℕ → Part E E.Label B.Item)
        → IsOpening 1 parts seat.old.me.0 seat.old.me.1
        → ps.items ≡ values_from (new_token table.now seat.old.me.0 parts) 1 processors) }
{
    let mut tokens = Vec::with_capacity(alloc, processors as usize)?;
    for place in 1..processors + 1 {
        let seat = table.split_seat(seat, place);
        tokens.push(Processor {
            seat,
            place,
            number,
            told: 0,
            refused: false,
        })?;
    }
    Ok(tokens)
}

impl<E: Numbered<Tag = B::Facts>, B: Kept> RmLock<E, B> {
    /// A lock for as many processors as there are editions, 1 to 64. All editions have the book's current
    /// number and tag, and one name. It also takes the memory that `close` needs.
    pub fn open(alloc: Global, editions: Vec<E>, book: B) -> Result<Opened<E, B>, OutOfMemory>
        requires most { vec_len editions ≤ 64 }
        requires opens { (edition : E) × (slice_get editions.items 0 ≡ Some edition)
            × OpensTable (meanings E.Numbered B.Kept) editions.items edition book }
        ensures opened { IfOk result (λ o. (edition : E) → slice_get editions.items 0 ≡ Some edition
            → OpensAs (meanings E.Numbered B.Kept)
            (vec_len editions) edition book o.lock o.processors.items o.operator) }
    {
        let processors = editions.len() as u32;
        let number = book.current();
        let OpenTable { table, mut seat } = RmTable::open(alloc, editions, book)?;
        let tokens = split_all(alloc, &table, &mut seat, processors, number)?;
        Ok(Opened {
            lock: RmLock { table },
            processors: tokens,
            operator: Operator {
                seat,
                processors,
                number,
            },
        })
    }
}
