ghost use Rattle.std.specs.Prelude.{◌≡◌, All, vec_len};
ghost use Rattle.rm_table.specs.Meanings.{meanings};
ghost use Rattle.rm_lock.specs.Ends.{EachOnce, ClosesAs};

use crate::{Closed, Operator, Processor, RmLock};
use fw_base::{Kept, Numbered};

impl<E: Numbered<Tag = B::Facts>, B: Kept> RmLock<E, B> {
    /// Ends the lock, with the tokens of all processors, each once in any order, and the operator's. Takes no
    /// memory.
    pub fn close(self, processors: Vec<Processor<E, B>>, operator: Operator<E, B>) -> Closed<E, B>
        requires lock { operator.table_id ≡ self }
        requires locks { All (λ p. p.table_id ≡ self) processors.items }
        requires each { EachOnce operator.view.count processors.items }
        ensures closed { ClosesAs (meanings E.Numbered B.Kept) operator.view
            processors.items result.book result.trackers.items result.editions.items }
    {
        let RmLock { table } = self;
        let Operator {
            mut seat,
            processors: _,
            number: _,
        } = operator;
        for processor in processors {
            let Processor {
                seat: spent,
                place: _,
                number: _,
                told: _,
                refused: _,
            } = processor;
            table.join_seat(&mut seat, spent);
        }
        table.close(seat)
    }
}
