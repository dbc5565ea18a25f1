ghost use Rattle.std.specs.Prelude.{◌≡◌, Some, IsSome};

use super::calls::{Lock, Reader, made_ready, refused, regained_at_once};
use super::two_processors::{Pair, close_pair, entered, open_pair};
use crate::closed::check_closed;
use crate::edition::Edition;
use crate::ledger::Ledger;
use rm_lock::{Holding, Reading};
use std::process::Abort;
use std::test::Fail;

/// One try takes the book.
fn book_taken(rt: &impl Abort, lock: &Lock, r: Reading<Edition, Ledger>) -> Holding<Edition, Ledger>
    requires lock { r.table_id ≡ lock.now }
    ensures lock { result.table_id ≡ lock.now }
    ensures place { result.view.place ≡ r.view.place }
    ensures book { result.view.book ≡ Some result.book }
{
    match lock.try_take_book(r) {
        Ok(h) => h,
        Err(_) => panic!(rt; "another has the book"),
    }
}

/// One try finds that this one has the book.
fn book_busy(
    rt: &impl Abort,
    lock: &Lock,
    r: Reading<Edition, Ledger>,
    holder: u64,
) -> Reading<Edition, Ledger>
    requires lock { r.table_id ≡ lock.now }
    ensures lock { result.table_id ≡ lock.now }
    ensures place { result.view.place ≡ r.view.place }
{
    match lock.try_take_book(r) {
        Ok(_) => panic!(rt; "nobody had the book"),
        Err(busy) => {
            assert_eq!(rt; busy.holder, holder);
            busy.back
        }
    }
}

/// One try finds that this one holds the lock behind.
fn behind_busy(rt: &impl Abort, lock: &Lock, p: Reader, holder: u64) -> Reader
    requires lock { p.table_id ≡ lock.now }
    requires refused { IsSome p.view.part.refusal }
    ensures lock { result.table_id ≡ lock.now }
    ensures place { result.view.place ≡ p.view.place }
    ensures refused { IsSome result.view.part.refusal }
{
    match lock.try_regain(p) {
        Ok(_) => panic!(rt; "nobody held the lock behind"),
        Err(busy) => {
            assert_eq!(rt; busy.holder, holder);
            busy.back
        }
    }
}

#[test]
fn busy_names_its_holder(rt: HostRuntime) -> Result<(), Fail> {
    let Pair {
        lock,
        first,
        second,
        operator,
    } = open_pair(&rt, rt.alloc())?;
    let first = entered(&rt, &lock, first);
    let second = entered(&rt, &lock, second);
    let holding = book_taken(&rt, &lock, first);
    let second = book_busy(&rt, &lock, second, 1);
    let first = lock.leave(lock.give_book(holding));
    let holding = book_taken(&rt, &lock, second);
    let second = lock.leave(lock.give_book(holding));
    let operator = made_ready(&rt, &lock, operator);
    let writing = lock.begin_write(&rt, operator);
    let first = refused(&rt, &lock, first, 2);
    let first = behind_busy(&rt, &lock, first, 3);
    let editions = vec![in rt.alloc(); Edition { number: 2 }; 2]?;
    let (operator, _) = lock.publish(writing, editions, 2);
    let first = regained_at_once(&rt, &lock, first, 2);
    let closed = close_pair(rt.alloc(), lock, first, second, operator)?;
    check_closed(&rt, &closed, &[4, 2], 2);
    Ok(())
}
