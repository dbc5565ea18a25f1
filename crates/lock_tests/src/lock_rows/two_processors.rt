ghost use Rattle.std.specs.Prelude.{◌≡◌, true, All, IfOk, vec_len};

use super::calls::{Lock, Reader, Writer, made_ready, open_lock, publish_next, section};
use crate::closed::check_closed;
use crate::edition::Edition;
use crate::ledger::Ledger;
use fw_base::Numbered;
use rm_lock::{Closed, Entry, Opened, Reading};
use std::alloc::Global;
use std::process::Abort;
use std::sync::Wait;
use std::test::Fail;
use std::thread::{Threads, join};

/// A lock of two processors at number 1, and its tokens.
pub(super) struct Pair {
    pub(super) lock: Lock,
    pub(super) first: Reader,
    pub(super) second: Reader,
    pub(super) operator: Writer,
}

pub(super) fn open_pair(rt: &impl Abort, alloc: Global) -> Result<Pair, Fail>
    ensures first { IfOk result (λ p. (p.first.table_id ≡ p.lock) × (p.first.view.place ≡ 1)) }
    ensures second { IfOk result (λ p. (p.second.table_id ≡ p.lock) × (p.second.view.place ≡ 2)) }
    ensures operator { IfOk result (λ p. (p.operator.table_id ≡ p.lock)
        × (p.operator.view.count ≡ 2) × (p.operator.view.number ≡ 1)) }
{
    let Opened {
        lock,
        mut processors,
        operator,
    } = open_lock(alloc, 2)?;
    match (processors.pop(), processors.pop()) {
        (Some(second), Some(first)) => Ok(Pair {
            lock,
            first,
            second,
            operator,
        }),
        _ => panic!(rt; "not two processors"),
    }
}

/// Ends a lock of two processors.
pub(super) fn close_pair(
    alloc: Global,
    lock: Lock,
    first: Reader,
    second: Reader,
    operator: Writer,
) -> Result<Closed<Edition, Ledger>, Fail>
    requires first { (first.table_id ≡ lock) × (first.view.place ≡ 1) }
    requires second { (second.table_id ≡ lock) × (second.view.place ≡ 2) }
    requires operator { (operator.table_id ≡ lock) × (operator.view.count ≡ 2) }
{
    let mut processors = Vec::with_capacity(alloc, 2)?;
    processors.push_reserved(first);
    processors.push_reserved(second);
    Ok(lock.close(processors, operator))
}

fn three_sections(rt: &impl Abort, lock: &Lock, p: Reader) -> Reader
    requires lock { p.table_id ≡ lock.now }
    ensures lock { result.table_id ≡ lock.now }
    ensures place { result.view.place ≡ p.view.place }
{
    let p = section(rt, lock, p, 1);
    let p = section(rt, lock, p, 1);
    section(rt, lock, p, 1)
}

/// Each processor makes its sections in a thread of its own.
fn sections_beside_each_other<R: Threads + Abort + Sync>(
    rt: &R,
    lock: &Lock,
    first: Reader,
    second: Reader,
) -> (Reader, Reader)
    requires first { first.table_id ≡ lock.now }
    requires second { second.table_id ≡ lock.now }
    ensures first { (result.0.table_id ≡ lock.now) × (result.0.view.place ≡ first.view.place) }
    ensures second { (result.1.table_id ≡ lock.now) × (result.1.view.place ≡ second.view.place) }
{
    join(
        rt,
        move || -> Reader
            requires { first.table_id ≡ lock.now }
            ensures { (result.table_id ≡ lock.entry.now) × (result.view.place ≡ first.view.place) }
        { three_sections(rt, lock, first) },
        move || -> Reader
            requires { second.table_id ≡ lock.now }
            ensures { (result.table_id ≡ lock.entry.now) × (result.view.place ≡ second.view.place) }
        { three_sections(rt, lock, second) },
    )
}

#[test]
fn readers_count_their_sections(rt: HostRuntime) -> Result<(), Fail> {
    let Pair {
        lock,
        first,
        second,
        operator,
    } = open_pair(&rt, rt.alloc())?;
    let (first, second) = sections_beside_each_other(&rt, &lock, first, second);
    let closed = close_pair(rt.alloc(), lock, first, second, operator)?;
    check_closed(&rt, &closed, &[6, 6], 1);
    Ok(())
}

pub(super) fn entered(rt: &impl Abort, lock: &Lock, p: Reader) -> Reading<Edition, Ledger>
    requires lock { p.table_id ≡ lock.now }
    ensures lock { result.table_id ≡ lock.now }
    ensures place { result.view.place ≡ p.view.place }
{
    match lock.enter(p) {
        Entry::In(r) => r,
        Entry::Revoked(_, _) => panic!(rt; "refused"),
    }
}

/// In its section the processor reads edition 1 again and again.
fn read_on(rt: &impl Abort, lock: &Lock, r: Reading<Edition, Ledger>) -> Reader
    requires lock { r.table_id ≡ lock.now }
    ensures lock { result.table_id ≡ lock.now }
    ensures place { result.view.place ≡ r.view.place }
{
    for _ in 0..1000 {
        assert_eq!(rt; r.edition().number(), 1);
    }
    lock.leave(r)
}

/// A publication begins while the processor reads, and ends once it has left.
fn publish_beside_the_reader<R: Threads + Wait + Abort + Sync>(
    rt: &R,
    lock: &Lock,
    r: Reading<Edition, Ledger>,
    o: Writer,
    editions: Vec<Edition>,
) -> (Reader, Writer)
    requires reading { r.table_id ≡ lock.now }
    requires operator { (o.table_id ≡ lock.now) × (o.view.ready ≡ true) × (o.view.number ≡ 1) }
    requires count { vec_len editions ≡ o.view.count }
    requires next { All (λ e. e.number ≡ 2) editions.items }
    ensures reader { (result.0.table_id ≡ lock.now) × (result.0.view.place ≡ r.view.place) }
    ensures writer { (result.1.table_id ≡ lock.now) × (result.1.view.count ≡ o.view.count) }
{
    join(
        rt,
        move || -> Reader
            requires { r.table_id ≡ lock.now }
            ensures { (result.table_id ≡ lock.entry.now) × (result.view.place ≡ r.view.place) }
        { read_on(rt, lock, r) },
        move || -> Writer
            requires { (o.table_id ≡ lock.now) × (o.view.ready ≡ true) × (o.view.number ≡ 1)
                × (vec_len editions ≡ o.view.count) × All (λ e. e.number ≡ 2) editions.items }
            ensures { (result.table_id ≡ lock.entry.now) × (result.view.count ≡ o.view.count) }
        { publish_next(rt, lock, o, editions, 2) },
    )
}

#[test]
fn drain_waits_for_the_reader(rt: HostRuntime) -> Result<(), Fail> {
    let Pair {
        lock,
        first,
        second,
        operator,
    } = open_pair(&rt, rt.alloc())?;
    let reading = entered(&rt, &lock, first);
    let operator = made_ready(&rt, &lock, operator);
    let editions = vec![in rt.alloc(); Edition { number: 2 }; 2]?;
    let (first, operator) = publish_beside_the_reader(&rt, &lock, reading, operator, editions);
    let closed = close_pair(rt.alloc(), lock, first, second, operator)?;
    check_closed(&rt, &closed, &[2, 0], 2);
    Ok(())
}
