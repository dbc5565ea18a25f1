ghost use Rattle.std.specs.Prelude.{◌≡◌, max};
ghost use Rattle.rm_table.specs.Moves.{receipt_view, informed_view};
ghost use Rattle.rm_lock.specs.Tokens.{told_number};

use crate::{Operator, Processor, Receipt, RmLock};
use fw_base::{Kept, Numbered};

impl<E: Numbered<Tag = B::Facts>, B: Kept> RmLock<E, B> {
    /// A receipt of what the operator has published so far. The operator is as it was.
    pub fn receipt(&self, o: Operator<E, B>) -> (Operator<E, B>, Receipt<E, B>)
        requires lock { o.table_id ≡ self.now }
        ensures operator { result.0 ≡ o }
        ensures lock { result.1.table_id ≡ self.now }
        ensures receipt { result.1.view ≡ receipt_view o.view }
    {
        let Operator {
            mut seat,
            processors,
            number,
        } = o;
        let told = self.table.split_seat(&mut seat, 0);
        (
            Operator {
                seat,
                processors,
                number,
            },
            Receipt { seat: told, number },
        )
    }

    /// The processor has then seen what the receipt has. Its number, its refusal and its lists stay. The
    /// edition that it enters next is of the receipt's number or a later one.
    pub fn hear(&self, p: Processor<E, B>, r: Receipt<E, B>) -> Processor<E, B>
        requires lock { p.table_id ≡ self.now }
        requires same { r.table_id ≡ self.now }
        ensures lock { result.table_id ≡ self.now }
        ensures heard { result.view ≡ informed_view p.view r.view }
        ensures told { told_number result.view ≡ max (told_number p.view) r.view.number }
    {
        let Processor {
            mut seat,
            place,
            number,
            told,
            refused,
        } = p;
        let Receipt {
            seat: spent,
            number: heard,
        } = r;
        self.table.join_seat(&mut seat, spent);
        Processor {
            seat,
            place,
            number,
            told: told.max(heard),
            refused,
        }
    }
}
