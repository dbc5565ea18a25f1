ghost use Rattle.std.specs.Prelude.{◌≡◌, ℕ, ◌-◌, ◌^◌, ◌<◌, ◌+◌, true, vec_len};
ghost use Rattle.rm_table.specs.Meanings.{meanings};
ghost use Rattle.rm_lock.specs.Calls.{BeginsWrite, AreNext, PublishesEditions};
ghost use Rattle.rm_lock.specs.Tokens.{AreOld};

use crate::publishing::{drain_all, exchange_all, publish_book, revoke_all};
use crate::{Operator, RmLock, Writing, waits};
use fw_base::{Kept, Numbered};
use std::sync::Wait;

impl<E: Numbered<Tag = B::Facts>, B: Kept> RmLock<E, B> {
    /// The operator, which knows that the book is ready, takes the lock behind, revokes every token for the
    /// next number, and waits until it has found every processor out.
    pub fn begin_write<R: Wait>(&self, rt: &R, o: Operator<E, B>) -> Writing<E, B>
        requires lock { o.table_id ≡ self.now }
        requires ready { o.view.ready ≡ true }
        requires room { o.view.number < 2 ^ 64 - 1 }
        ensures lock { result.table_id ≡ self.now }
        ensures begun { BeginsWrite o.view result.view }
    {
        let Operator {
            mut seat,
            processors,
            number,
        } = o;
        waits::take_back(&self.table, rt, &mut seat);
        revoke_all(&self.table, &mut seat, processors);
        drain_all(&self.table, rt, &mut seat, processors);
        Writing {
            seat,
            processors,
            number,
        }
    }

    /// Publishes an edition for each processor, all of the next number, of one name and with these facts, and
    /// gives back the old ones. The book takes the facts in: nobody is in, so the book is free, and one try
    /// takes it. It waits for nobody.
    pub fn publish(
        &self,
        w: Writing<E, B>,
        mut editions: Vec<E>,
        facts: B::Facts,
    ) -> (Operator<E, B>, Vec<E>)
        requires lock { w.table_id ≡ self.now }
        requires count { vec_len editions ≡ w.view.count }
        requires next { AreNext (meanings E.Numbered B.Kept) w.view.number editions.items facts }
        requires facts { B.facts_number facts ≡ w.view.number + 1 }
        ensures lock { result.0.table_id ≡ self.now }
        ensures published { PublishesEditions (meanings E.Numbered B.Kept) w.view
            editions.items facts result.0.view }
        ensures old { AreOld (meanings E.Numbered B.Kept) w.view result.1.items }
    {
        let Writing {
            mut seat,
            processors,
            number,
        } = w;
        exchange_all(&self.table, &mut seat, &mut editions);
        publish_book(&self.table, &mut seat, facts);
        (
            Operator {
                seat,
                processors,
                number: number + 1,
            },
            editions,
        )
    }
}
