ghost use Rattle.std.specs.Prelude.{◌≡◌, ℕ, ◌+◌, ◌-◌, ◌^◌, ◌<◌, ◌≤◌, true, false, [], None, IfOk, length};
ghost use Rattle.rm_table.specs.Moves.{IsOperator, is_revoked, is_drained};
ghost use Rattle.rm_table.specs.Rests.{IsIdle, IsAtRest, OpensFrom};

use crate::edition::Edition;
use crate::ledger::Ledger;
use rm_core::Heard;
use rm_table::{OpenTable, RmSeat, RmTable, Tried};
use std::alloc::Global;
use std::process::Abort;
use std::test::Fail;

pub(crate) type LockTable = RmTable<Edition, Ledger>;

pub(crate) type Seat = RmSeat<Edition, Ledger>;

/// Opens a table at number 1, of so many processors.
pub(crate) fn open_table(alloc: Global, processors: u32) -> Result<OpenTable<Edition, Ledger>, Fail>
    requires some { 0 < processors }
    requires few { processors ≤ 64 }
    ensures table { IfOk result (λ o. o.seat.table_id ≡ o.table) }
    ensures opening { IfOk result (λ o. OpensFrom 1 o.seat.me.0 o.seat.me.1) }
    ensures count { IfOk result (λ o. (o.seat.me.0.count ≡ processors) × (o.seat.me.0.number ≡ 1)) }
{
    let editions = vec![in alloc; Edition { number: 1 }; processors as usize]?;
    let book = Ledger {
        number: 1,
        publications: 1,
        entries: 0,
    };
    Ok(RmTable::open(alloc, editions, book)?)
}

/// A table of two processors at number 1, and its three seats.
pub(crate) struct Pair {
    pub(crate) table: LockTable,
    pub(crate) operator: Seat,
    pub(crate) first: Seat,
    pub(crate) second: Seat,
}

/// Opens a table of two processors at number 1, and splits their seats off.
pub(crate) fn open_pair(alloc: Global) -> Result<Pair, Fail>
    ensures tables { IfOk result (λ p. (p.operator.table_id ≡ p.table)
        × (p.first.table_id ≡ p.table) × (p.second.table_id ≡ p.table)) }
    ensures operator { IfOk result (λ p. IsAtRest p.operator.me.0 p.operator.me.1) }
    ensures count { IfOk result (λ p. (p.operator.me.0.count ≡ 2) × (p.operator.me.0.number ≡ 1)) }
    ensures first { IfOk result (λ p. IsIdle p.first.me.0 p.first.me.1) }
    ensures second { IfOk result (λ p. IsIdle p.second.me.0 p.second.me.1) }
    ensures places { IfOk result (λ p. (p.first.me.0.place ≡ 1) × (p.second.me.0.place ≡ 2)) }
{
    let OpenTable {
        table,
        seat: mut operator,
    } = open_table(alloc, 2)?;
    let first = table.split_seat(&mut operator, 1);
    let second = table.split_seat(&mut operator, 2);
    Ok(Pair {
        table,
        operator,
        first,
        second,
    })
}

/// A whole section. Answers what its check heard.
pub(crate) fn section(table: &LockTable, seat: &mut Seat) -> Heard
    requires table { seat.old.table_id ≡ table.now }
    requires idle { IsIdle seat.old.me.0 seat.old.me.1 }
    ensures table { seat.new.table_id ≡ seat.old.table_id }
    ensures place { seat.new.me.0.place ≡ seat.old.me.0.place }
    ensures idle { IsIdle seat.new.me.0 seat.new.me.1 }
{
    table.raise(seat);
    let heard = table.check(seat);
    table.lower(seat);
    heard
}

/// The operator of a table of two processors takes the lock behind and both tokens.
pub(crate) fn take_tokens(rt: &impl Abort, table: &LockTable, operator: &mut Seat)
    requires table { operator.old.table_id ≡ table.now }
    requires at_rest { IsAtRest operator.old.me.0 operator.old.me.1 }
    requires count { operator.old.me.0.count ≡ 2 }
    requires room { operator.old.me.0.number < 2 ^ 64 - 1 }
    ensures table { operator.new.table_id ≡ operator.old.table_id }
    ensures operator { IsOperator operator.new.me.0 }
    ensures same { (operator.new.me.0.count ≡ 2)
        × (operator.new.me.0.number ≡ operator.old.me.0.number) × (operator.new.me.0.book ≡ None)
        × (operator.new.me.1 ≡ []) }
    ensures behind { operator.new.me.0.behind ≡ true }
    ensures revoked { (is_revoked operator.new.me.0 1 ≡ true)
        × (is_revoked operator.new.me.0 2 ≡ true) }
    ensures undrained { (is_drained operator.new.me.0 1 ≡ false)
        × (is_drained operator.new.me.0 2 ≡ false) }
    ensures sizes { (length operator.new.me.0.drained ≡ 3) × (length operator.new.me.0.kept ≡ 3) }
    ensures counts { operator.new.me.0.opened + length operator.new.me.0.history
        ≡ operator.new.me.0.number + 1 }
{
    assert_eq!(rt; table.take_back(operator), Tried::Taken);
    table.revoke(operator, 1);
    table.revoke(operator, 2);
}

/// A processor takes its token again, under the lock behind. Answers the number that it read there.
pub(crate) fn regain_token(rt: &impl Abort, table: &LockTable, seat: &mut Seat) -> u64
    requires table { seat.old.table_id ≡ table.now }
    requires idle { IsIdle seat.old.me.0 seat.old.me.1 }
    ensures table { seat.new.table_id ≡ seat.old.table_id }
    ensures place { seat.new.me.0.place ≡ seat.old.me.0.place }
    ensures idle { IsIdle seat.new.me.0 seat.new.me.1 }
{
    assert_eq!(rt; table.take_back(seat), Tried::Taken);
    let number = table.read_number(seat);
    table.regain(seat);
    table.give_back(seat);
    number
}

/// The processor is refused with that number, takes its token again there, and is let in.
pub(crate) fn regain_after_refusal(rt: &impl Abort, table: &LockTable, seat: &mut Seat, number: u64)
    requires table { seat.old.table_id ≡ table.now }
    requires idle { IsIdle seat.old.me.0 seat.old.me.1 }
    ensures table { seat.new.table_id ≡ seat.old.table_id }
    ensures place { seat.new.me.0.place ≡ seat.old.me.0.place }
    ensures idle { IsIdle seat.new.me.0 seat.new.me.1 }
{
    assert_eq!(rt; section(table, seat), Heard::Revoked(number));
    assert_eq!(rt; regain_token(rt, table, seat), number);
    assert_eq!(rt; section(table, seat), Heard::Held);
}
