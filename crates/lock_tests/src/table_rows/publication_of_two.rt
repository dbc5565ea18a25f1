ghost use Rattle.std.specs.Prelude.{◌≡◌, ℕ, ◌+◌, ◌<◌, ◌≤◌, true, false, None, [], ◌∷◌, length, slice_set};
ghost use Rattle.rm_table.specs.Moves.{IsOperator, is_revoked, is_drained};
ghost use Rattle.rm_table.specs.declared.padded_slot.Slot.TheVariants.{Edition as Home};
ghost use Rattle.rm_table.specs.Rests.{IsAtRest};

use super::publication::take_ledger;
use super::seats::{LockTable, Pair, Seat, open_pair, regain_after_refusal, section, take_tokens};
use crate::closed::check_closed;
use crate::edition::Edition;
use fw_base::Kept;
use rm_core::Heard;
use std::process::Abort;
use std::test::Fail;

/// The operator finds the processor at that place out, and puts the next edition into its slot.
fn renew_edition(rt: &impl Abort, table: &LockTable, operator: &mut Seat, place: u32, next: u64)
    requires table { operator.old.table_id ≡ table.now }
    requires operator { IsOperator operator.old.me.0 }
    requires above { 0 < place }
    requires within { place ≤ operator.old.me.0.count }
    requires revoked { is_revoked operator.old.me.0 place ≡ true }
    requires undrained { is_drained operator.old.me.0 place ≡ false }
    ensures table { operator.new.table_id ≡ operator.old.table_id }
    ensures operator { IsOperator operator.new.me.0 }
    ensures same { (operator.new.me.0.count ≡ operator.old.me.0.count)
        × (operator.new.me.0.number ≡ operator.old.me.0.number)
        × (operator.new.me.0.kept ≡ operator.old.me.0.kept) }
    ensures locks { (operator.new.me.0.behind ≡ operator.old.me.0.behind)
        × (operator.new.me.0.book ≡ operator.old.me.0.book) }
    ensures past { (operator.new.me.0.opened ≡ operator.old.me.0.opened)
        × (operator.new.me.0.history ≡ operator.old.me.0.history) }
    ensures revoked { operator.new.me.0.revoked ≡ operator.old.me.0.revoked }
    ensures drained { operator.new.me.0.drained ≡ slice_set operator.old.me.0.drained place true }
    ensures hand { operator.new.me.1 ≡ (place, Home (Some (record { number = next })))
        ∷ operator.old.me.1 }
{
    assert_eq!(rt; table.drain(operator, place), Heard::Drained);
    let old = table.exchange_edition(operator, place, Some(Edition { number: next }));
    assert!(rt; old.is_some());
}

/// The operator, which has both tokens, puts the next edition into both slots.
fn renew_both(rt: &impl Abort, table: &LockTable, operator: &mut Seat, next: u64)
    requires table { operator.old.table_id ≡ table.now }
    requires operator { IsOperator operator.old.me.0 }
    requires same { (operator.old.me.0.count ≡ 2) × (operator.old.me.0.book ≡ None)
        × (operator.old.me.1 ≡ []) }
    requires behind { operator.old.me.0.behind ≡ true }
    requires revoked { (is_revoked operator.old.me.0 1 ≡ true)
        × (is_revoked operator.old.me.0 2 ≡ true) }
    requires undrained { (is_drained operator.old.me.0 1 ≡ false)
        × (is_drained operator.old.me.0 2 ≡ false) }
    requires sizes { (length operator.old.me.0.drained ≡ 3) × (length operator.old.me.0.kept ≡ 3) }
    requires counts { operator.old.me.0.opened + length operator.old.me.0.history
        ≡ operator.old.me.0.number + 1 }
    ensures table { operator.new.table_id ≡ operator.old.table_id }
    ensures operator { IsOperator operator.new.me.0 }
    ensures same { (operator.new.me.0.count ≡ 2)
        × (operator.new.me.0.number ≡ operator.old.me.0.number) }
    ensures hand { operator.new.me.1 ≡ (1, Home (Some (record { number = next })))
        ∷ (2, Home (Some (record { number = next }))) ∷ [] }
    ensures locks { (operator.new.me.0.behind ≡ true) × (operator.new.me.0.book ≡ None) }
    ensures drained { (is_drained operator.new.me.0 1 ≡ true)
        × (is_drained operator.new.me.0 2 ≡ true) }
    ensures size { length operator.new.me.0.kept ≡ 3 }
    ensures counts { operator.new.me.0.opened + length operator.new.me.0.history
        ≡ operator.new.me.0.number + 1 }
{
    renew_edition(rt, table, operator, 2, next);
    renew_edition(rt, table, operator, 1, next);
}

/// The operator, with the next edition of both in hand, publishes it, and gives book and lock back.
fn publish_both(rt: &impl Abort, table: &LockTable, operator: &mut Seat, next: u64)
    requires table { operator.old.table_id ≡ table.now }
    requires operator { IsOperator operator.old.me.0 }
    requires same { (operator.old.me.0.count ≡ 2) × (operator.old.me.0.number + 1 ≡ next) }
    requires hand { operator.old.me.1 ≡ (1, Home (Some (record { number = next })))
        ∷ (2, Home (Some (record { number = next }))) ∷ [] }
    requires locks { (operator.old.me.0.behind ≡ true) × (operator.old.me.0.book ≡ None) }
    requires drained { (is_drained operator.old.me.0 1 ≡ true)
        × (is_drained operator.old.me.0 2 ≡ true) }
    requires size { length operator.old.me.0.kept ≡ 3 }
    requires counts { operator.old.me.0.opened + length operator.old.me.0.history
        ≡ operator.old.me.0.number + 1 }
    ensures table { operator.new.table_id ≡ operator.old.table_id }
    ensures at_rest { IsAtRest operator.new.me.0 operator.new.me.1 }
    ensures same { (operator.new.me.0.count ≡ 2) × (operator.new.me.0.number ≡ next) }
{
    let mut book = take_ledger(rt, table, operator);
    assert!(rt; book.is_ready());
    book.publish(next);
    let slot = table.exchange_book(operator, Some(book));
    assert!(rt; slot.is_none());
    operator.turn();
    table.publish(operator);
    table.give_book(operator);
    table.give_back(operator);
}

/// A publication refuses both processors, and reaches both: each regains its token at the new number.
#[test]
fn both_processors_regain_the_published_number(rt: HostRuntime) -> Result<(), Fail> {
    let Pair {
        table,
        mut operator,
        mut first,
        mut second,
    } = open_pair(rt.alloc())?;
    assert_eq!(rt; section(&table, &mut first), Heard::Held);
    take_tokens(&rt, &table, &mut operator);
    assert_eq!(rt; section(&table, &mut first), Heard::Revoked(2));
    renew_both(&rt, &table, &mut operator, 2);
    assert_eq!(rt; section(&table, &mut second), Heard::Revoked(2));
    publish_both(&rt, &table, &mut operator, 2);
    regain_after_refusal(&rt, &table, &mut first, 2);
    regain_after_refusal(&rt, &table, &mut second, 2);
    table.join_seat(&mut operator, second);
    table.join_seat(&mut operator, first);
    check_closed(&rt, &table.close(operator), &[8, 6], 2);
    Ok(())
}
