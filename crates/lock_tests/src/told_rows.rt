ghost use Rattle.std.specs.Prelude.{◌≡◌, IsSome, IfOk};

use crate::closed::check_closed;
use crate::edition::Edition;
use crate::ledger::Ledger;
use crate::lock_rows::calls::{Lock, Reader, Writer, made_ready};
use crate::lock_rows::one_processor::{Single, close_single, open_single};
use fw_base::Numbered;
use rm_lock::Receipt;
use rm_told::{Deep, DeepEntry, Left, Told};
use std::alloc::Global;
use std::process::Abort;
use std::sync::Wait;
use std::test::Fail;

/// The operator publishes edition 2, and makes a receipt of it.
fn publish_second<R: Abort + Wait>(
    rt: &R,
    alloc: Global,
    lock: &Lock,
    o: Writer,
) -> Result<(Writer, Receipt<Edition, Ledger>), Fail>
    requires lock { o.table_id ≡ lock.now }
    requires one { (o.view.count ≡ 1) × (o.view.number ≡ 1) }
    ensures operator { IfOk result (λ r. (r.0.table_id ≡ lock.now) × (r.0.view.count ≡ 1)) }
    ensures receipt { IfOk result (λ r. r.1.table_id ≡ lock.now) }
{
    let o = made_ready(rt, lock, o);
    let editions = vec![in alloc; Edition { number: 2 }; 1]?;
    let writing = lock.begin_write(rt, o);
    let (o, old) = lock.publish(writing, editions, 2);
    assert_eq!(rt; old.len(), 1);
    let (o, receipt) = lock.receipt(o);
    assert_eq!(rt; receipt.number(), 2);
    Ok((o, receipt))
}

/// The processor hears the receipt, is refused with 2, and has its token again by one try.
fn come_to_second(
    rt: &impl Abort,
    told: &Told<Edition, Ledger>,
    p: Reader,
    receipt: Receipt<Edition, Ledger>,
) -> Reader
    requires lock { p.table_id ≡ told.now }
    requires receipt { receipt.table_id ≡ told.now }
    ensures lock { result.table_id ≡ told.now }
    ensures place { result.view.place ≡ p.view.place }
{
    let p = told.lock().hear(p, receipt);
    assert_eq!(rt; (p.told(), p.number()), (2, 1));
    match told.enter(p) {
        DeepEntry::In(_) => panic!(rt; "let in"),
        DeepEntry::Revoked(p, refusal) => {
            assert_eq!(rt; refusal, 2);
            match told.lock().try_regain(p) {
                Ok(p) => {
                    assert_eq!(rt; (p.told(), p.number()), (2, 2));
                    p
                }
                Err(_) => panic!(rt; "busy"),
            }
        }
    }
}

/// One section deeper, where edition 2 is read as before.
fn deeper(
    rt: &impl Abort,
    told: &Told<Edition, Ledger>,
    d: Deep<Edition, Ledger>,
    depth: u32,
) -> Deep<Edition, Ledger>
    requires lock { d.reading.table_id ≡ told.now }
    ensures lock { result.reading.table_id ≡ told.now }
    ensures place { result.reading.view.place ≡ d.reading.view.place }
{
    match told.again(d) {
        Ok(d) => {
            assert_eq!(rt; (d.depth(), d.edition().number()), (depth, 2));
            d
        }
        Err(_) => panic!(rt; "too deep"),
    }
}

/// One section ends in another.
fn still(
    rt: &impl Abort,
    told: &Told<Edition, Ledger>,
    d: Deep<Edition, Ledger>,
    depth: u32,
) -> Deep<Edition, Ledger>
    requires lock { d.reading.table_id ≡ told.now }
    ensures lock { result.reading.table_id ≡ told.now }
    ensures place { result.reading.view.place ≡ d.reading.view.place }
{
    match told.leave(d) {
        Left::Still(d) => {
            assert_eq!(rt; (d.depth(), d.edition().number()), (depth, 2));
            d
        }
        Left::Out(_) => panic!(rt; "out"),
    }
}

/// Three sections in one another.
fn three_deep(rt: &impl Abort, told: &Told<Edition, Ledger>, p: Reader) -> Reader
    requires lock { p.table_id ≡ told.now }
    ensures lock { result.table_id ≡ told.now }
    ensures place { result.view.place ≡ p.view.place }
{
    match told.enter(p) {
        DeepEntry::In(d) => {
            assert_eq!(rt; (d.depth(), d.edition().number()), (1, 2));
            let d = deeper(rt, told, d, 2);
            let d = deeper(rt, told, d, 3);
            let d = still(rt, told, d, 2);
            let d = still(rt, told, d, 1);
            match told.leave(d) {
                Left::Still(_) => panic!(rt; "still in"),
                Left::Out(p) => p,
            }
        }
        DeepEntry::Revoked(_, _) => panic!(rt; "refused"),
    }
}

#[test]
fn told_reader_meets_the_edition(rt: HostRuntime) -> Result<(), Fail> {
    let Single {
        lock,
        processor,
        operator,
    } = open_single(&rt, rt.alloc())?;
    let told = Told::of(lock);
    assert_eq!(rt; processor.told(), 0);
    let (operator, receipt) = publish_second(&rt, rt.alloc(), told.lock(), operator)?;
    let processor = come_to_second(&rt, &told, processor, receipt);
    let processor = three_deep(&rt, &told, processor);
    let closed = close_single(rt.alloc(), told.into_lock(), processor, operator)?;
    check_closed(&rt, &closed, &[4], 2);
    Ok(())
}
