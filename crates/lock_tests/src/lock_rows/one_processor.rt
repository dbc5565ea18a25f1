ghost use Rattle.std.specs.Prelude.{◌≡◌, IfOk};

use super::calls::{
    Lock, Reader, Writer, made_ready, open_lock, publish_next, refused, regained, section,
    section_with_entry,
};
use crate::closed::check_closed;
use crate::edition::Edition;
use crate::ledger::Ledger;
use rm_lock::{Closed, Opened};
use std::alloc::Global;
use std::process::Abort;
use std::test::Fail;

/// A lock of one processor at number 1, and its tokens.
pub(crate) struct Single {
    pub(crate) lock: Lock,
    pub(crate) processor: Reader,
    pub(crate) operator: Writer,
}

pub(crate) fn open_single(rt: &impl Abort, alloc: Global) -> Result<Single, Fail>
    ensures processor { IfOk result (λ s. (s.processor.table_id ≡ s.lock)
        × (s.processor.view.place ≡ 1)) }
    ensures operator { IfOk result (λ s. (s.operator.table_id ≡ s.lock)
        × (s.operator.view.count ≡ 1) × (s.operator.view.number ≡ 1)) }
{
    let Opened {
        lock,
        mut processors,
        operator,
    } = open_lock(alloc, 1)?;
    match processors.pop() {
        Some(processor) => Ok(Single {
            lock,
            processor,
            operator,
        }),
        None => panic!(rt; "no processor"),
    }
}

/// Ends a lock of one processor.
pub(crate) fn close_single(
    alloc: Global,
    lock: Lock,
    processor: Reader,
    operator: Writer,
) -> Result<Closed<Edition, Ledger>, Fail>
    requires processor { (processor.table_id ≡ lock) × (processor.view.place ≡ 1) }
    requires operator { (operator.table_id ≡ lock) × (operator.view.count ≡ 1) }
{
    let mut processors = Vec::with_capacity(alloc, 1)?;
    processors.push_reserved(processor);
    Ok(lock.close(processors, operator))
}

#[test]
fn lock_of_one_processor(rt: HostRuntime) -> Result<(), Fail> {
    let Single {
        lock,
        processor,
        operator,
    } = open_single(&rt, rt.alloc())?;
    let processor = section(&rt, &lock, processor, 1);
    let operator = made_ready(&rt, &lock, operator);
    let editions = vec![in rt.alloc(); Edition { number: 2 }; 1]?;
    let operator = publish_next(&rt, &lock, operator, editions, 2);
    let processor = refused(&rt, &lock, processor, 2);
    let processor = regained(&rt, &lock, processor, 2);
    let processor = section(&rt, &lock, processor, 2);
    let closed = close_single(rt.alloc(), lock, processor, operator)?;
    check_closed(&rt, &closed, &[6], 2);
    Ok(())
}

#[test]
fn book_has_the_entry_of_a_section(rt: HostRuntime) -> Result<(), Fail> {
    let Single {
        lock,
        processor,
        operator,
    } = open_single(&rt, rt.alloc())?;
    let processor = section_with_entry(&rt, &lock, processor);
    let closed = close_single(rt.alloc(), lock, processor, operator)?;
    check_closed(&rt, &closed, &[2], 1);
    assert_eq!(rt; closed.book.entries, 1);
    Ok(())
}
