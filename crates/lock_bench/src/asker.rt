ghost use Rattle.std.specs.Prelude.{◌≡◌, ◌<◌, ◌≤◌, All, IfOk};

use crate::ask::look_up;
use crate::boxed_book::BoxedBook;
use crate::facts_edition::{FactsEdition, editions_of};
use anyhow::Result;
use bench_times::nanoseconds;
use fw_base::OutOfMemory;
use fw_rule::default_settings;
use rm_lock::{Entry, Opened, Processor, RmLock};
use state_asks::{Facts, Identities};
use state_journal::Book;
use std::alloc::Global;
use std::sync::{Mutex, Wait};
use std::time::{Clock, Instant};

pub type AskedLock = RmLock<FactsEdition, BoxedBook>;

pub type Asker = Processor<FactsEdition, BoxedBook>;

/// What the publication of number 1 tells the states: no rule but rule 65535, and the usual settings.
pub fn first_facts(alloc: Global) -> Result<Facts, OutOfMemory>
    ensures { IfOk result (λ facts. facts.number ≡ 1) }
{
    let rules = vec![in alloc; 0]?;
    Ok(Facts {
        number: 1,
        rules: Identities::new(alloc, rules)?,
        settings: default_settings(),
    })
}

/// Opens a lock at number 1, of so many processors, around a book of as many lanes.
pub fn open_asked(
    alloc: Global,
    processors: u32,
) -> Result<Opened<FactsEdition, BoxedBook>, OutOfMemory>
    requires some { 0 < processors }
    requires few { processors ≤ 64 }
    ensures processors { IfOk result (λ o. All (λ p. p.table_id ≡ o.lock) o.processors.items) }
{
    let facts = first_facts(alloc)?;
    let editions = editions_of(alloc, &facts, processors)?;
    let book = Box::new(alloc, Book::open(alloc, processors, facts)?)?;
    Ok(RmLock::open(alloc, editions, BoxedBook { book })?)
}

/// One section: enter, take the book, ask it, give it back, leave. Where the processor is refused, it regains.
fn section<R: Wait>(
    rt: &R,
    lock: &AskedLock,
    p: Asker,
    record: u32,
) -> (Asker, Result<(), OutOfMemory>)
    requires lock { p.table_id ≡ lock.now }
    ensures lock { result.0.table_id ≡ lock.now }
{
    let place = p.place();
    match lock.enter(p) {
        Entry::In(reading) => {
            let mut holding = lock.take_book(rt, reading);
            let asked = look_up(&mut holding.book().book, place, record);
            (lock.leave(lock.give_book(holding)), asked)
        }
        Entry::Revoked(p, _) => (lock.regain(rt, p), Ok(())),
    }
}

/// So many sections of a processor, with an ask in each. Answers their nanoseconds.
pub fn asks<R: Clock + Wait>(rt: &R, lock: &AskedLock, p: Asker, count: u32) -> Result<u64>
    requires lock { p.table_id ≡ lock.now }
{
    let mut asker = p;
    let start = Instant::now(rt)?;
    for record in 0..count {
        let (after, asked) = section(rt, lock, asker, record);
        asker = after;
        asked?;
    }
    Ok(nanoseconds(rt, start)?)
}

/// So many asks of a book behind std's mutex, which is locked for each. Answers their nanoseconds.
pub fn asks_under_mutex<R: Clock + Wait>(rt: &R, book: &Mutex<Book>, count: u32) -> Result<u64> {
    let start = Instant::now(rt)?;
    for record in 0..count {
        look_up(&mut book.lock(rt), 1, record)?;
    }
    Ok(nanoseconds(rt, start)?)
}
