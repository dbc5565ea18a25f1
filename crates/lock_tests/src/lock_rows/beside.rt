ghost use Rattle.std.specs.Prelude.{◌≡◌, ◌<◌, ◌≤◌, IfOk};
ghost use Rattle.std.specs.Thread.{IsSync};

use crate::entry_counts::EntryCounts;
use crate::marked_edition::MarkedEdition;
use fw_base::{Kept, Numbered};
use rm_lock::{Closed, Entry, Opened, Operator, Processor, Reading, RmLock};
use std::alloc::{AllocError, Global};
use std::process::Abort;
use std::sync::Wait;
use std::test::Fail;
use std::thread::{Threads, join};

type Lock = RmLock<MarkedEdition, EntryCounts>;

type Reader = Processor<MarkedEdition, EntryCounts>;

type Writer = Operator<MarkedEdition, EntryCounts>;

/// The turns of each of two readers, and the publications beside them.
const ROWS: [(u32, u32); 4] = [(1000, 0), (1000, 10), (1000, 100), (100, 1000)];

/// The tokens of a lock of two processors.
#[derive(Drop)]
struct Tokens {
    first: Reader,
    second: Reader,
    operator: Writer,
}

/// What a reader has met.
#[derive(Clone, Copy)]
struct Met {
    last: u64,
    entries: u64,
    refusals: u64,
}

/// A lock of two processors at number 1.
fn open_pair(rt: &impl Abort, alloc: Global) -> Result<(Lock, Tokens), Fail>
    ensures first { IfOk result (λ p. (p.1.first.table_id ≡ p.0) × (p.1.first.view.place ≡ 1)) }
    ensures second { IfOk result (λ p. (p.1.second.table_id ≡ p.0) × (p.1.second.view.place ≡ 2)) }
    ensures operator { IfOk result (λ p. (p.1.operator.table_id ≡ p.0)
        × (p.1.operator.view.count ≡ 2) × (p.1.operator.view.number ≡ 1)) }
{
    let edition = MarkedEdition::of(1);
    let editions = vec![in alloc; edition; 2]?;
    let book = EntryCounts {
        last: edition.tag,
        lengths: [1, 0, 0],
    };
    let Opened {
        lock,
        mut processors,
        operator,
    } = RmLock::open(alloc, editions, book)?;
    match (processors.pop(), processors.pop()) {
        (Some(second), Some(first)) => Ok((
            lock,
            Tokens {
                first,
                second,
                operator,
            },
        )),
        _ => panic!(rt; "not two processors"),
    }
}

/// In a section: takes the book, which is its edition's and has its entries, adds one, and gives it back.
fn section<R: Abort + Wait>(
    rt: &R,
    lock: &Lock,
    r: Reading<MarkedEdition, EntryCounts>,
    place: u32,
    met: &mut Met,
) -> Reader
    requires lock { r.table_id ≡ lock.now }
    requires place { r.view.place ≡ place }
    requires above { 0 < place }
    requires within { place ≤ 2 }
    ensures lock { result.table_id ≡ lock.now }
    ensures place { result.view.place ≡ place }
{
    let edition = *r.edition();
    assert_eq!(rt; edition, MarkedEdition::of(r.number()));
    assert!(rt; edition.tag.number >= met.last);
    let mut h = lock.take_book(rt, r);
    let book = h.book();
    assert_eq!(rt; book.last, edition.tag);
    assert_eq!(rt; book.lengths[place as usize], met.entries);
    book.add_entry(place);
    met.last = edition.tag.number;
    met.entries = met.entries.wrapping_add(1);
    lock.leave(lock.give_book(h))
}

/// A section, or, where it is refused, a wait for the token.
fn turn<R: Abort + Wait>(rt: &R, lock: &Lock, p: Reader, place: u32, met: &mut Met) -> Reader
    requires lock { p.table_id ≡ lock.now }
    requires place { p.view.place ≡ place }
    requires above { 0 < place }
    requires within { place ≤ 2 }
    ensures lock { result.table_id ≡ lock.now }
    ensures place { result.view.place ≡ place }
{
    match lock.enter(p) {
        Entry::In(r) => section(rt, lock, r, place, met),
        Entry::Revoked(p, refusal) => {
            assert!(rt; refusal > met.last);
            let p = lock.regain(rt, p);
            assert!(rt; p.number() >= refusal);
            met.last = p.number();
            met.refusals = met.refusals.wrapping_add(1);
            p
        }
    }
}

/// So many turns of the reader at that place.
fn all_turns<R: Abort + Wait>(
    rt: &R,
    lock: &Lock,
    p: Reader,
    place: u32,
    turns: u32,
) -> (Reader, Met)
    requires lock { p.table_id ≡ lock.now }
    requires place { p.view.place ≡ place }
    requires above { 0 < place }
    requires within { place ≤ 2 }
    ensures lock { result.0.table_id ≡ lock.now }
    ensures place { result.0.view.place ≡ place }
{
    let mut reader = p;
    let mut met = Met {
        last: 1,
        entries: 0,
        refusals: 0,
    };
    for _ in 0..turns {
        reader = turn(rt, lock, reader, place, &mut met);
    }
    (reader, met)
}

/// Publishes the numbers from 2 on, so many.
fn all_publications<R: Abort + Wait>(
    rt: &R,
    alloc: Global,
    lock: &Lock,
    o: Writer,
    publications: u32,
) -> Result<Writer, AllocError>
    requires lock { o.table_id ≡ lock.now }
    requires first { (o.view.number ≡ 1) × (o.view.count ≡ 2) }
    ensures lock { IfOk result (λ w. (w.table_id ≡ lock.now) × (w.view.count ≡ 2)) }
{
    let mut operator = o;
    for next in 2..u64::from(publications) + 2 {
        let mut k = lock.open_book(rt, operator);
        let ready = k.book().is_ready();
        assert!(rt; ready);
        let o = lock.shut_book(k);
        let edition = MarkedEdition::of(next);
        let editions = vec![in alloc; edition; 2]?;
        let writing = lock.begin_write(rt, o);
        let (o, _) = lock.publish(writing, editions, edition.tag);
        operator = o;
    }
    Ok(operator)
}

/// Each reader makes its turns in a thread of its own.
fn both_readers<R: Threads + Abort + Wait + Sync>(
    rt: &R,
    lock: &Lock,
    first: Reader,
    second: Reader,
    turns: u32,
) -> ((Reader, Met), (Reader, Met))
    requires first { (first.table_id ≡ lock.now) × (first.view.place ≡ 1) }
    requires second { (second.table_id ≡ lock.now) × (second.view.place ≡ 2) }
    ensures first { (result.0.0.table_id ≡ lock.now) × (result.0.0.view.place ≡ 1) }
    ensures second { (result.1.0.table_id ≡ lock.now) × (result.1.0.view.place ≡ 2) }
{
    join(
        rt,
        move || -> (Reader, Met)
            requires { (first.table_id ≡ lock.now) × (first.view.place ≡ 1) }
            ensures { (result.0.table_id ≡ lock.entry.now) × (result.0.view.place ≡ 1) }
        { all_turns(rt, lock, first, 1, turns) },
        move || -> (Reader, Met)
            requires { (second.table_id ≡ lock.now) × (second.view.place ≡ 2) }
            ensures { (result.0.table_id ≡ lock.entry.now) × (result.0.view.place ≡ 2) }
        { all_turns(rt, lock, second, 2, turns) },
    )
}

/// The turns of both readers, beside so many publications.
fn turns_beside_publications<R: Threads + Abort + Wait + Sync>(
    rt: &R,
    alloc: Global,
    lock: &Lock,
    tokens: Tokens,
    turns: u32,
    publications: u32,
) -> Result<(Tokens, Met, Met), AllocError>
    requires first { (tokens.first.table_id ≡ lock.now) × (tokens.first.view.place ≡ 1) }
    requires second { (tokens.second.table_id ≡ lock.now) × (tokens.second.view.place ≡ 2) }
    requires operator { (tokens.operator.table_id ≡ lock.now)
        × (tokens.operator.view.number ≡ 1) × (tokens.operator.view.count ≡ 2) }
    ensures first { IfOk result (λ p. (p.0.first.table_id ≡ lock.now) × (p.0.first.view.place ≡ 1)) }
    ensures second { IfOk result (λ p. (p.0.second.table_id ≡ lock.now)
        × (p.0.second.view.place ≡ 2)) }
    ensures operator { IfOk result (λ p. (p.0.operator.table_id ≡ lock.now)
        × (p.0.operator.view.count ≡ 2)) }
{
    let Tokens {
        first,
        second,
        operator,
    } = tokens;
    let (((first, of_first), (second, of_second)), operator) = join(
        rt,
        move || -> ((Reader, Met), (Reader, Met))
            requires { IsSync R.row × (first.table_id ≡ lock.now) × (first.view.place ≡ 1)
                × (second.table_id ≡ lock.now) × (second.view.place ≡ 2) }
            ensures { (result.0.0.table_id ≡ lock.entry.now) × (result.0.0.view.place ≡ 1)
                × (result.1.0.table_id ≡ lock.entry.now) × (result.1.0.view.place ≡ 2) }
        { both_readers(rt, lock, first, second, turns) },
        move || -> Result<Writer, AllocError>
            requires { (operator.table_id ≡ lock.now) × (operator.view.number ≡ 1)
                × (operator.view.count ≡ 2) }
            ensures { IfOk result (λ w. (w.table_id ≡ lock.entry.now) × (w.view.count ≡ 2)) }
        { all_publications(rt, alloc, lock, operator, publications) },
    );
    let operator = operator?;
    Ok((
        Tokens {
            first,
            second,
            operator,
        },
        of_first,
        of_second,
    ))
}

/// Ends a lock of two processors.
fn close_pair(
    alloc: Global,
    lock: Lock,
    tokens: Tokens,
) -> Result<Closed<MarkedEdition, EntryCounts>, Fail>
    requires first { (tokens.first.table_id ≡ lock) × (tokens.first.view.place ≡ 1) }
    requires second { (tokens.second.table_id ≡ lock) × (tokens.second.view.place ≡ 2) }
    requires operator { (tokens.operator.table_id ≡ lock) × (tokens.operator.view.count ≡ 2) }
{
    let mut processors = Vec::with_capacity(alloc, 2)?;
    processors.push_reserved(tokens.first);
    processors.push_reserved(tokens.second);
    Ok(lock.close(processors, tokens.operator))
}

/// What is left of a lock after such turns and publications.
fn check_left(
    rt: &impl Abort,
    closed: &Closed<MarkedEdition, EntryCounts>,
    met: (Met, Met),
    turns: u32,
    publications: u32,
) {
    let turns = u64::from(turns);
    let published = u64::from(publications) + 1;
    let last = MarkedEdition::of(published);
    assert_eq!(rt; closed.trackers.as_slice(), [2 * turns; 2].as_slice());
    assert_eq!(rt; closed.editions.as_slice(), [last; 2].as_slice());
    let (first, second) = met;
    let lengths = [published, first.entries, second.entries];
    assert_eq!(rt;
        (closed.book.last, closed.book.lengths),
        (last.tag, lengths)
    );
    for one in [first, second] {
        assert_eq!(rt; one.entries.checked_add(one.refusals), Some(turns));
    }
}

#[test]
fn readers_of_the_book_regain_beside_publications(rt: HostRuntime) -> Result<(), Fail> {
    let alloc = rt.alloc();
    for (turns, publications) in ROWS {
        let (lock, tokens) = open_pair(&rt, alloc)?;
        let (tokens, first, second) = turns_beside_publications(
            &rt,
            alloc,
            &lock,
            tokens,
            turns,
            publications,
        )?;
        let closed = close_pair(alloc, lock, tokens)?;
        check_left(&rt, &closed, (first, second), turns, publications);
    }
    Ok(())
}
