ghost use Rattle.std.specs.Prelude.{◌≡◌, ℕ, ◌+◌, ◌-◌, ◌^◌, ◌<◌, true, false, None, [], ◌∷◌, length, replicate, IfOk};
ghost use Rattle.rm_table.specs.Layout.{book_index};
ghost use Rattle.rm_table.specs.Moves.{IsOperator, is_revoked, is_drained, with_step, book_taken};
ghost use Rattle.rm_table.specs.declared.padded_slot.Slot.TheVariants.{Edition as Home, Book as Held};
ghost use Rattle.rm_table.specs.Rests.{IsIdle, IsAtRest};

use super::seats::{LockTable, Seat, open_table, regain_after_refusal, section};
use crate::closed::check_closed;
use crate::edition::Edition;
use crate::ledger::Ledger;
use fw_base::Kept;
use rm_core::Heard;
use rm_table::{OpenTable, Tried};
use std::alloc::Global;
use std::process::Abort;
use std::test::Fail;

/// A table of one processor at number 1, and its two seats.
pub(crate) struct Single {
    pub(crate) table: LockTable,
    pub(crate) operator: Seat,
    pub(crate) processor: Seat,
}

pub(crate) fn open_single(alloc: Global) -> Result<Single, Fail>
    ensures tables { IfOk result (λ s. (s.operator.table_id ≡ s.table)
        × (s.processor.table_id ≡ s.table)) }
    ensures operator { IfOk result (λ s. IsAtRest s.operator.me.0 s.operator.me.1) }
    ensures count { IfOk result (λ s. (s.operator.me.0.count ≡ 1) × (s.operator.me.0.number ≡ 1)) }
    ensures processor { IfOk result (λ s. IsIdle s.processor.me.0 s.processor.me.1) }
    ensures place { IfOk result (λ s. s.processor.me.0.place ≡ 1) }
{
    let OpenTable {
        table,
        seat: mut operator,
    } = open_table(alloc, 1)?;
    let processor = table.split_seat(&mut operator, 1);
    Ok(Single {
        table,
        operator,
        processor,
    })
}

/// The operator takes the lock behind and the token.
pub(crate) fn take_token(rt: &impl Abort, table: &LockTable, operator: &mut Seat)
    requires table { operator.old.table_id ≡ table.now }
    requires at_rest { IsAtRest operator.old.me.0 operator.old.me.1 }
    requires count { operator.old.me.0.count ≡ 1 }
    requires room { operator.old.me.0.number < 2 ^ 64 - 1 }
    ensures table { operator.new.table_id ≡ operator.old.table_id }
    ensures operator { IsOperator operator.new.me.0 }
    ensures same { (operator.new.me.0.count ≡ 1)
        × (operator.new.me.0.number ≡ operator.old.me.0.number) × (operator.new.me.1 ≡ []) }
    ensures locks { (operator.new.me.0.behind ≡ true) × (operator.new.me.0.book ≡ None) }
    ensures revoked { is_revoked operator.new.me.0 1 ≡ true }
    ensures undrained { is_drained operator.new.me.0 1 ≡ false }
    ensures sizes { (length operator.new.me.0.drained ≡ 2) × (length operator.new.me.0.kept ≡ 2) }
    ensures counts { operator.new.me.0.opened + length operator.new.me.0.history
        ≡ operator.new.me.0.number + 1 }
{
    assert_eq!(rt; table.take_back(operator), Tried::Taken);
    table.revoke(operator, 1);
}

/// The operator finds the processor out, and puts the next edition into its slot.
pub(crate) fn renew(rt: &impl Abort, table: &LockTable, operator: &mut Seat, next: u64)
    requires table { operator.old.table_id ≡ table.now }
    requires operator { IsOperator operator.old.me.0 }
    requires same { (operator.old.me.0.count ≡ 1) × (operator.old.me.1 ≡ []) }
    requires locks { (operator.old.me.0.behind ≡ true) × (operator.old.me.0.book ≡ None) }
    requires revoked { is_revoked operator.old.me.0 1 ≡ true }
    requires undrained { is_drained operator.old.me.0 1 ≡ false }
    requires sizes { (length operator.old.me.0.drained ≡ 2) × (length operator.old.me.0.kept ≡ 2) }
    requires counts { operator.old.me.0.opened + length operator.old.me.0.history
        ≡ operator.old.me.0.number + 1 }
    ensures table { operator.new.table_id ≡ operator.old.table_id }
    ensures operator { IsOperator operator.new.me.0 }
    ensures same { (operator.new.me.0.count ≡ 1)
        × (operator.new.me.0.number ≡ operator.old.me.0.number) }
    ensures hand { operator.new.me.1 ≡ (1, Home (Some (record { number = next }))) ∷ [] }
    ensures locks { (operator.new.me.0.behind ≡ true) × (operator.new.me.0.book ≡ None) }
    ensures drained { is_drained operator.new.me.0 1 ≡ true }
    ensures size { length operator.new.me.0.kept ≡ 2 }
    ensures counts { operator.new.me.0.opened + length operator.new.me.0.history
        ≡ operator.new.me.0.number + 1 }
{
    assert_eq!(rt; table.drain(operator, 1), Heard::Drained);
    let old = table.exchange_edition(operator, 1, Some(Edition { number: next }));
    assert!(rt; old.is_some());
}

/// The operator takes the book, and the book out of its slot.
pub(crate) fn take_ledger(rt: &impl Abort, table: &LockTable, operator: &mut Seat) -> Ledger
    requires table { operator.old.table_id ≡ table.now }
    requires operator { IsOperator operator.old.me.0 }
    ensures table { operator.new.table_id ≡ operator.old.table_id }
    ensures seat { operator.new.me
        ≡ (
          with_step (book_taken operator.old.me.0 result) book_index 0,
          (0, Held None) ∷ operator.old.me.1,
        ) }
    ensures number { result.number ≡ operator.old.me.0.number }
    ensures publications { replicate result.publications 0 ≡ operator.old.me.0.own }
{
    assert_eq!(rt; table.take_book(operator), Tried::Taken);
    match table.exchange_book(operator, None) {
        Some(book) => book,
        None => panic!(rt; "the book was taken"),
    }
}

/// The operator, with the processor's next edition in hand, publishes it, and gives book and lock back.
pub(crate) fn publish_next(rt: &impl Abort, table: &LockTable, operator: &mut Seat, next: u64)
    requires table { operator.old.table_id ≡ table.now }
    requires operator { IsOperator operator.old.me.0 }
    requires same { (operator.old.me.0.count ≡ 1) × (operator.old.me.0.number + 1 ≡ next) }
    requires hand { operator.old.me.1 ≡ (1, Home (Some (record { number = next }))) ∷ [] }
    requires locks { (operator.old.me.0.behind ≡ true) × (operator.old.me.0.book ≡ None) }
    requires drained { is_drained operator.old.me.0 1 ≡ true }
    requires size { length operator.old.me.0.kept ≡ 2 }
    requires counts { operator.old.me.0.opened + length operator.old.me.0.history
        ≡ operator.old.me.0.number + 1 }
    ensures table { operator.new.table_id ≡ operator.old.table_id }
    ensures at_rest { IsAtRest operator.new.me.0 operator.new.me.1 }
    ensures same { (operator.new.me.0.count ≡ 1) × (operator.new.me.0.number ≡ next) }
{
    let mut book = take_ledger(rt, table, operator);
    assert!(rt; book.is_ready());
    book.publish(next);
    let slot = table.exchange_book(operator, Some(book));
    assert!(rt; slot.is_none());
    operator.turn();
    table.publish(operator);
    table.give_book(operator);
    table.give_back(operator);
}

/// A publication refuses the processor, and reaches it: it regains its token at the new number.
#[test]
fn refused_processor_regains_the_published_number(rt: HostRuntime) -> Result<(), Fail> {
    let Single {
        table,
        mut operator,
        mut processor,
    } = open_single(rt.alloc())?;
    assert_eq!(rt; section(&table, &mut processor), Heard::Held);
    take_token(&rt, &table, &mut operator);
    assert_eq!(rt; section(&table, &mut processor), Heard::Revoked(2));
    renew(&rt, &table, &mut operator, 2);
    publish_next(&rt, &table, &mut operator, 2);
    regain_after_refusal(&rt, &table, &mut processor, 2);
    table.join_seat(&mut operator, processor);
    check_closed(&rt, &table.close(operator), &[8], 2);
    Ok(())
}
