ghost use Rattle.std.specs.Prelude.{◌≡◌, ◌+◌, All, IfOk, vec_len};
ghost use Rattle.std.specs.Thread.{IsSync};

use super::calls::{Lock, Reader, Writer, made_ready, open_lock, publish_next};
use crate::edition::Edition;
use crate::ledger::Ledger;
use fw_base::Numbered;
use rm_lock::{Entry, Opened, Reading};
use std::alloc::{AllocError, Global};
use std::process::Abort;
use std::sync::Wait;
use std::test::Fail;
use std::thread::{Threads, join};

const READERS: usize = 8;

/// A reader's turns end by themselves, since in none of them it waits.
const TURNS: u32 = 200_000;

const LOOKS: u32 = 4;

const PUBLICATIONS: u64 = 1000;

/// A section: its edition is no earlier than the last one, and stays. Answers its number.
fn met(rt: &impl Abort, lock: &Lock, r: Reading<Edition, Ledger>, last: u64) -> (Reader, u64)
    requires lock { r.table_id ≡ lock.now }
    ensures lock { result.0.table_id ≡ lock.now }
{
    let number = r.number();
    assert!(rt; number >= last);
    for _ in 0..LOOKS {
        assert_eq!(rt; r.edition().number(), number);
    }
    (lock.leave(r), number)
}

/// A section, or where it is refused one try to regain. Answers the number that it knows then.
fn turn(rt: &impl Abort, lock: &Lock, p: Reader, last: u64) -> (Reader, u64)
    requires lock { p.table_id ≡ lock.now }
    ensures lock { result.0.table_id ≡ lock.now }
{
    match lock.enter(p) {
        Entry::In(r) => met(rt, lock, r, last),
        Entry::Revoked(p, _) => match lock.try_regain(p) {
            Ok(p) => {
                let number = p.number();
                assert!(rt; number > last);
                (p, number)
            }
            Err(busy) => (busy.back, last),
        },
    }
}

fn all_turns(rt: &impl Abort, lock: &Lock, p: Reader) -> Reader
    requires lock { p.table_id ≡ lock.now }
    ensures lock { result.table_id ≡ lock.now }
{
    let mut reader = p;
    let mut last = 0;
    for _ in 0..TURNS {
        let (after, met) = turn(rt, lock, reader, last);
        reader = after;
        last = met;
    }
    reader
}

/// Each reader makes its turns in a thread of its own.
fn readers_in_threads<R: Threads + Abort + Sync>(rt: &R, lock: &Lock, mut readers: Vec<Reader>)
    requires locks { All (λ p. p.table_id ≡ lock.now) readers.items }
{
    if let Some(reader) = readers.pop() {
        join(
            rt,
            move || -> Reader
                requires { reader.table_id ≡ lock.now }
            { all_turns(rt, lock, reader) },
            move || -> ()
                requires { IsSync R.row × All (λ p. p.table_id ≡ lock.now) readers.items }
            { readers_in_threads(rt, lock, readers) },
        );
    }
}

fn all_publications<R: Abort + Wait>(
    rt: &R,
    alloc: Global,
    lock: &Lock,
    o: Writer,
) -> Result<Writer, AllocError>
    requires lock { o.table_id ≡ lock.now }
    requires first { (o.view.number ≡ 1) × (o.view.count ≡ READERS) }
    ensures last { IfOk result (λ w. w.view.number ≡ PUBLICATIONS + 1) }
{
    let mut operator = o;
    for next in 2..PUBLICATIONS + 2 {
        let ready = made_ready(rt, lock, operator);
        let editions = vec![in alloc; Edition { number: next }; READERS]?;
        operator = publish_next(rt, lock, ready, editions, next);
    }
    Ok(operator)
}

fn publications_beside_readers<R: Threads + Wait + Abort + Sync>(
    rt: &R,
    alloc: Global,
    lock: &Lock,
    readers: Vec<Reader>,
    o: Writer,
) -> Result<Writer, AllocError>
    requires readers { All (λ p. p.table_id ≡ lock.now) readers.items }
    requires operator { (o.table_id ≡ lock.now) × (o.view.number ≡ 1) × (o.view.count ≡ READERS) }
{
    let (_, operator) = join(
        rt,
        move || -> ()
            requires { IsSync R.row × All (λ p. p.table_id ≡ lock.now) readers.items }
        { readers_in_threads(rt, lock, readers) },
        move || -> Result<Writer, AllocError>
            requires { (o.table_id ≡ lock.now) × (o.view.number ≡ 1) × (o.view.count ≡ READERS) }
        { all_publications(rt, alloc, lock, o) },
    );
    operator
}

#[test]
fn thousand_publications_beside_eight_readers(rt: HostRuntime) -> Result<(), Fail> {
    let Opened {
        lock,
        processors,
        operator,
    } = open_lock(rt.alloc(), READERS)?;
    let operator = publications_beside_readers(&rt, rt.alloc(), &lock, processors, operator)?;
    assert_eq!(rt; operator.number(), PUBLICATIONS + 1);
    Ok(())
}
