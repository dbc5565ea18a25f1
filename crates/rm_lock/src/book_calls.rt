ghost use Rattle.std.specs.Prelude.{◌≡◌, Some};
ghost use Rattle.rm_table.specs.Meanings.{meanings};
ghost use Rattle.rm_lock.specs.Calls.{TakesBook, TriesToTakeBook, OpensBook, IsAsTaken, IsAsFound, after_giving_book};

use crate::slots::{put_book, take_out_book};
use crate::{Busy, Holding, Keeping, Operator, Reading, RmLock, waits};
use fw_base::{Kept, Numbered};
use rm_table::Tried;
use std::sync::Wait;

impl<E: Numbered<Tag = B::Facts>, B: Kept> RmLock<E, B> {
    /// A processor in a section waits for the book and takes it. The book has the number and tag of the
    /// processor's edition, the processor's list as it left it, and a list 0 that begins with the one at
    /// the opening.
    pub fn take_book<R: Wait>(&self, rt: &R, r: Reading<E, B>) -> Holding<E, B>
        requires lock { r.table_id ≡ self.now }
        ensures lock { result.table_id ≡ self.now }
        ensures taken { TakesBook (meanings E.Numbered B.Kept) r.view result.view result.book }
    {
        let Reading {
            mut seat,
            edition,
            place,
            refused,
        } = r;
        waits::take_book(&self.table, rt, &mut seat);
        let book = take_out_book(&self.table, &mut seat);
        Holding {
            seat,
            edition,
            book,
            place,
            refused,
        }
    }

    /// `take_book` by one try, which waits for nobody. `Busy` tells whom that try saw to have the book.
    pub fn try_take_book(&self, r: Reading<E, B>) -> Result<Holding<E, B>, Busy<Reading<E, B>>>
        requires lock { r.table_id ≡ self.now }
        ensures tried { TriesToTakeBook (meanings E.Numbered B.Kept) r result }
    {
        let Reading {
            mut seat,
            edition,
            place,
            refused,
        } = r;
        match self.table.take_book(&mut seat) {
            Tried::Taken => {
                let book = take_out_book(&self.table, &mut seat);
                Ok(Holding {
                    seat,
                    edition,
                    book,
                    place,
                    refused,
                })
            }
            Tried::HeldBy(holder) => Err(Busy {
                back: Reading {
                    seat,
                    edition,
                    place,
                    refused,
                },
                holder: u64::from(holder),
            }),
        }
    }

    /// The processor gives the book back: number, tag and all lists but its own are as taken, and it is
    /// ready if it was. It waits for nobody.
    pub fn give_book(&self, h: Holding<E, B>) -> Reading<E, B>
        requires lock { h.table_id ≡ self.now }
        requires left { IsAsTaken (meanings E.Numbered B.Kept) h.view h.book }
        ensures lock { result.table_id ≡ self.now }
        ensures given { result.view
            ≡ after_giving_book (meanings E.Numbered B.Kept) h.view h.book }
    {
        let Holding {
            mut seat,
            edition,
            book,
            place,
            refused,
        } = h;
        put_book(&self.table, &mut seat, book);
        self.table.give_book(&mut seat);
        Reading {
            seat,
            edition,
            place,
            refused,
        }
    }

    /// The operator waits for the book and takes it: it has the published number and the tag of the last
    /// publication, list 0 is the operator's own, and it is ready where the operator knows so.
    pub fn open_book<R: Wait>(&self, rt: &R, o: Operator<E, B>) -> Keeping<E, B>
        requires lock { o.table_id ≡ self.now }
        ensures lock { result.table_id ≡ self.now }
        ensures opened { OpensBook (meanings E.Numbered B.Kept) o.view result.view result.book }
    {
        let Operator {
            mut seat,
            processors,
            number,
        } = o;
        waits::take_book(&self.table, rt, &mut seat);
        let book = take_out_book(&self.table, &mut seat);
        Keeping {
            seat,
            book,
            processors,
            number,
        }
    }

    /// The operator gives the book back: number, tag and every list are as taken, and it is ready if it was.
    /// Where it is ready the operator knows it, until the publication. It waits for nobody.
    pub fn shut_book(&self, k: Keeping<E, B>) -> Operator<E, B>
        requires lock { k.table_id ≡ self.now }
        requires left { IsAsFound (meanings E.Numbered B.Kept) k.view k.book }
        ensures lock { result.table_id ≡ self.now }
        ensures given { result.view
            ≡ after_giving_book (meanings E.Numbered B.Kept) k.view k.book }
    {
        let Keeping {
            mut seat,
            book,
            processors,
            number,
        } = k;
        put_book(&self.table, &mut seat, book);
        self.table.give_book(&mut seat);
        Operator {
            seat,
            processors,
            number,
        }
    }
}
