ghost use Rattle.std.specs.Prelude.{◌≡◌, ◌+◌, ◌-◌, ◌^◌, ◌<◌, ◌≤◌, true, IsSome, All, IfOk, vec_len};
ghost use Rattle.lock_tests.specs.Opened.{TokensStandInOrder};

use crate::edition::Edition;
use crate::ledger::Ledger;
use fw_base::{Kept, Numbered};
use rm_lock::{Entry, Opened, Operator, Processor, RmLock};
use std::alloc::Global;
use std::process::Abort;
use std::sync::Wait;
use std::test::Fail;

pub(crate) type Lock = RmLock<Edition, Ledger>;

pub(crate) type Reader = Processor<Edition, Ledger>;

pub(crate) type Writer = Operator<Edition, Ledger>;

/// Opens a lock at number 1, of so many processors.
pub(crate) fn open_lock(alloc: Global, processors: usize) -> Result<Opened<Edition, Ledger>, Fail>
    requires some { 0 < processors }
    requires few { processors ≤ 64 }
    ensures tokens { IfOk result (λ o. TokensStandInOrder processors o.lock o.processors.items) }
    ensures locks { IfOk result (λ o. All (λ p. p.table_id ≡ o.lock) o.processors.items) }
    ensures operator { IfOk result (λ o. (o.operator.table_id ≡ o.lock)
        × (o.operator.view.count ≡ processors) × (o.operator.view.number ≡ 1)) }
{
    let editions = vec![in alloc; Edition { number: 1 }; processors]?;
    let book = Ledger {
        number: 1,
        publications: 1,
        entries: 0,
    };
    let opened = RmLock::open(alloc, editions, book)?;
    Ok(opened)
}

/// One section, in which the edition has that number.
pub(crate) fn section(rt: &impl Abort, lock: &Lock, p: Reader, number: u64) -> Reader
    requires lock { p.table_id ≡ lock.now }
    ensures lock { result.table_id ≡ lock.now }
    ensures place { result.view.place ≡ p.view.place }
{
    match lock.enter(p) {
        Entry::In(r) => {
            assert_eq!(rt; r.number(), number);
            assert_eq!(rt; r.edition().number(), number);
            lock.leave(r)
        }
        Entry::Revoked(_, _) => panic!(rt; "refused"),
    }
}

/// The processor is refused, with that number.
pub(crate) fn refused(rt: &impl Abort, lock: &Lock, p: Reader, number: u64) -> Reader
    requires lock { p.table_id ≡ lock.now }
    ensures lock { result.table_id ≡ lock.now }
    ensures place { result.view.place ≡ p.view.place }
    ensures refused { IsSome result.view.part.refusal }
{
    match lock.enter(p) {
        Entry::In(_) => panic!(rt; "let in"),
        Entry::Revoked(p, refusal) => {
            assert_eq!(rt; refusal, number);
            p
        }
    }
}

/// The processor takes its token again, and knows that number.
pub(crate) fn regained<R: Abort + Wait>(rt: &R, lock: &Lock, p: Reader, number: u64) -> Reader
    requires lock { p.table_id ≡ lock.now }
    requires refused { IsSome p.view.part.refusal }
    ensures lock { result.table_id ≡ lock.now }
    ensures place { result.view.place ≡ p.view.place }
{
    let p = lock.regain(rt, p);
    assert_eq!(rt; p.number(), number);
    p
}

/// The processor takes its token again by one try, and knows that number.
pub(crate) fn regained_at_once(rt: &impl Abort, lock: &Lock, p: Reader, number: u64) -> Reader
    requires lock { p.table_id ≡ lock.now }
    requires refused { IsSome p.view.part.refusal }
    ensures lock { result.table_id ≡ lock.now }
    ensures place { result.view.place ≡ p.view.place }
{
    match lock.try_regain(p) {
        Ok(p) => {
            assert_eq!(rt; p.number(), number);
            p
        }
        Err(_) => panic!(rt; "another holds the lock behind"),
    }
}

/// The operator looks into the book, and knows that it is ready.
pub(crate) fn made_ready<R: Abort + Wait>(rt: &R, lock: &Lock, o: Writer) -> Writer
    requires lock { o.table_id ≡ lock.now }
    ensures lock { result.table_id ≡ lock.now }
    ensures same { (result.view.count ≡ o.view.count) × (result.view.number ≡ o.view.number) }
    ensures ready { result.view.ready ≡ true }
{
    let mut k = lock.open_book(rt, o);
    let ready = k.book().is_ready();
    assert!(rt; ready);
    lock.shut_book(k)
}

/// The operator publishes these editions of the next number, and has the old ones back.
pub(crate) fn publish_next<R: Abort + Wait>(
    rt: &R,
    lock: &Lock,
    o: Writer,
    editions: Vec<Edition>,
    next: u64,
) -> Writer
    requires lock { o.table_id ≡ lock.now }
    requires ready { o.view.ready ≡ true }
    requires room { next < 2 ^ 64 }
    requires number { o.view.number + 1 ≡ next }
    requires count { vec_len editions ≡ o.view.count }
    requires next { All (λ e. e.number ≡ next) editions.items }
    ensures lock { result.table_id ≡ lock.now }
    ensures same { (result.view.count ≡ o.view.count) × (result.view.number ≡ next) }
{
    let writing = lock.begin_write(rt, o);
    let (o, old) = lock.publish(writing, editions, next);
    for edition in &old {
        assert!(rt; edition.number < next);
    }
    assert_eq!(rt; o.number(), next);
    o
}

/// One section, in which the processor at place 1 takes the book and adds an entry to its own list.
pub(crate) fn section_with_entry<R: Abort + Wait>(rt: &R, lock: &Lock, p: Reader) -> Reader
    requires lock { p.table_id ≡ lock.now }
    requires place { p.view.place ≡ 1 }
    ensures lock { result.table_id ≡ lock.now }
    ensures place { result.view.place ≡ 1 }
{
    match lock.enter(p) {
        Entry::In(r) => {
            let mut h = lock.take_book(rt, r);
            assert_eq!(rt; h.edition().number(), h.number());
            let book = h.book();
            book.entries = book.entries.saturating_add(1);
            lock.leave(lock.give_book(h))
        }
        Entry::Revoked(_, _) => panic!(rt; "refused"),
    }
}
