ghost use Rattle.std.specs.Prelude.{◌≡◌, ◌<◌, ◌≤◌, All, IfOk};

use crate::book::Book;
use crate::edition::{Edition, first_editions};
use bench_times::nanoseconds;
use fw_base::OutOfMemory;
use rm_lock::{Entry, Opened, Processor, RmLock};
use std::alloc::Global;
use std::io;
use std::sync::Wait;
use std::time::{Clock, Instant};

pub type Lock = RmLock<Edition, Book>;

pub type Reader = Processor<Edition, Book>;

/// So many sections of a processor, in each of which a field of the edition is read. Answers their
/// nanoseconds.
pub fn sections<R: Clock + Wait>(rt: &R, lock: &Lock, p: Reader, count: u32) -> io::Result<u64>
    requires lock { p.table_id ≡ lock.now }
{
    let mut reader = p;
    let mut latest = 0;
    let start = Instant::now(rt)?;
    for _ in 0..count {
        let (after, number) = section(rt, lock, reader);
        reader = after;
        latest = number.max(latest);
    }
    let time = nanoseconds(rt, start)?;
    Ok(time.max(latest))
}

/// Opens a lock at number 1, of so many processors.
pub fn open_lock(alloc: Global, processors: u32) -> Result<Opened<Edition, Book>, OutOfMemory>
    requires some { 0 < processors }
    requires few { processors ≤ 64 }
    ensures processors { IfOk result (λ o. All (λ p. p.table_id ≡ o.lock) o.processors.items) }
    ensures operator { IfOk result (λ o. (o.operator.table_id ≡ o.lock)
        × (o.operator.view.count ≡ processors)) }
{
    let editions = first_editions(alloc, processors)?;
    Ok(RmLock::open(alloc, editions, Book::new())?)
}

/// One section: enter, read the edition's number, leave. Where the processor is refused, it regains, and the
/// answer is 0.
fn section<R: Wait>(rt: &R, lock: &Lock, p: Reader) -> (Reader, u64)
    requires lock { p.table_id ≡ lock.now }
    ensures lock { result.0.table_id ≡ lock.now }
{
    match lock.enter(p) {
        Entry::In(reading) => {
            let number = reading.edition().number;
            (lock.leave(reading), number)
        }
        Entry::Revoked(p, _) => (lock.regain(rt, p), 0),
    }
}
