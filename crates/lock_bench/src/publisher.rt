ghost use Rattle.std.specs.Prelude.{◌≡◌, IfOk};

use crate::book::Book;
use crate::edition::Edition;
use crate::reader::Lock;
use bench_times::PAUSE;
use fw_base::Kept;
use rm_lock::Operator;
use std::alloc::{AllocError, Global};
use std::sync::Wait;
use std::sync::atomic::{AtomicBool, Ordering};
use std::thread;
use std::time::{Clock, Duration};

/// Publishes about 100 times a second until the readers are done. Answers how often.
pub fn publish_until<R: Clock + Wait>(
    rt: &R,
    alloc: Global,
    lock: &Lock,
    o: Operator<Edition, Book>,
    processors: u32,
    done: &AtomicBool,
) -> Result<u32, AllocError>
    requires lock { o.table_id ≡ lock.now }
    requires count { o.view.count ≡ processors }
{
    let mut operator = o;
    for published in 0..u32::MAX {
        if done.load(Ordering::SeqCst) {
            return Ok(published);
        }
        operator = publish_next(rt, alloc, lock, operator, processors)?;
        thread::sleep(rt, Duration::from_millis(PAUSE));
    }
    Ok(u32::MAX)
}

/// Publishes an edition of the next number for each processor, where there is a next number and the book has
/// room.
fn publish_next<R: Wait>(
    rt: &R,
    alloc: Global,
    lock: &Lock,
    o: Operator<Edition, Book>,
    processors: u32,
) -> Result<Operator<Edition, Book>, AllocError>
    requires lock { o.table_id ≡ lock.now }
    requires count { o.view.count ≡ processors }
    ensures lock { IfOk result (λ after. after.table_id ≡ lock.now) }
    ensures count { IfOk result (λ after. after.view.count ≡ processors) }
{
    let mut keeping = lock.open_book(rt, o);
    let is_ready = keeping.book().is_ready();
    let o = lock.shut_book(keeping);
    let number = o.number();
    if !is_ready || number == u64::MAX {
        return Ok(o);
    }
    let editions = vec![in alloc; Edition { number: number + 1 }; processors as usize]?;
    let writing = lock.begin_write(rt, o);
    let (o, _) = lock.publish(writing, editions, number + 1);
    Ok(o)
}
