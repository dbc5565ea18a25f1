ghost use Rattle.std.specs.Prelude.{◌≡◌, ℕ, ◌+◌, ◌-◌, ◌<◌, ◌≤◌};
ghost use Rattle.std.specs.Thread.{IsSync};
ghost use Rattle.rm_table.specs.Rests.{IsIdle, IsInSection, OpensFrom, IsRejoinedFrom};

use super::seats::{LockTable, Seat, open_table};
use crate::closed::check_closed;
use rm_core::Heard;
use rm_table::{OpenTable, Tried};
use std::test::Fail;
use std::thread::{Threads, join};

const SECTIONS: u32 = 1000;

/// In a section: takes the book where it is free, and gives it back as it was. Answers whether it had it.
fn look_into_book(table: &LockTable, seat: &mut Seat) -> bool
    requires table { seat.old.table_id ≡ table.now }
    requires inside { IsInSection seat.old.me.0 seat.old.me.1 }
    ensures table { seat.new.table_id ≡ seat.old.table_id }
    ensures place { seat.new.me.0.place ≡ seat.old.me.0.place }
    ensures inside { IsInSection seat.new.me.0 seat.new.me.1 }
{
    match table.take_book(seat) {
        Tried::Taken => {
            table.give_book(seat);
            true
        }
        Tried::HeldBy(_) => false,
    }
}

/// A section with a look into the book. Answers whether it had the book.
fn section_with_book(table: &LockTable, seat: &mut Seat) -> bool
    requires table { seat.old.table_id ≡ table.now }
    requires idle { IsIdle seat.old.me.0 seat.old.me.1 }
    ensures table { seat.new.table_id ≡ seat.old.table_id }
    ensures place { seat.new.me.0.place ≡ seat.old.me.0.place }
    ensures idle { IsIdle seat.new.me.0 seat.new.me.1 }
{
    table.raise(seat);
    let had = match table.check(seat) {
        Heard::Held => look_into_book(table, seat),
        _ => false,
    };
    table.lower(seat);
    had
}

/// The sections of the processor at that place, each with a look into the book.
fn sections_with_book(table: &LockTable, mut seat: Seat, place: u32) -> Seat
    requires table { seat.table_id ≡ table.now }
    requires place { seat.me.0.place ≡ place }
    requires idle { IsIdle seat.me.0 seat.me.1 }
    ensures table { result.table_id ≡ table.now }
    ensures place { result.me.0.place ≡ place }
    ensures idle { IsIdle result.me.0 result.me.1 }
{
    for _ in 0..SECTIONS {
        section_with_book(table, &mut seat);
    }
    seat
}

/// Splits off the seats of the places from `place` on, makes sections in a thread for each, and joins them
/// again.
fn sections_in_threads<R: Threads + Sync>(
    rt: &R,
    table: &LockTable,
    mut operator: Seat,
    place: u32,
    processors: u32,
) -> Seat
    requires table { operator.table_id ≡ table.now }
    requires opening { OpensFrom place operator.me.0 operator.me.1 }
    requires count { operator.me.0.count ≡ processors }
    requires above { 0 < place }
    requires within { place ≤ processors + 1 }
    requires few { processors ≤ 64 }
    ensures table { result.table_id ≡ table.now }
    ensures count { result.me.0.count ≡ processors }
    ensures rejoined { IsRejoinedFrom place result.me.0 result.me.1 }
{
    if place > processors {
        return operator;
    }
    let seat = table.split_seat(&mut operator, place);
    let (seat, mut operator) = join(
        rt,
        move || -> Seat
            requires { (seat.table_id ≡ table.now) × (seat.me.0.place ≡ place)
                × IsIdle seat.me.0 seat.me.1 }
            ensures { (result.table_id ≡ table.entry.now) × (result.me.0.place ≡ place)
                × IsIdle result.me.0 result.me.1 }
        { sections_with_book(table, seat, place) },
        move || -> Seat
            requires { IsSync R.row × (operator.table_id ≡ table.now)
                × OpensFrom (place + 1) operator.me.0 operator.me.1
                × (operator.me.0.count ≡ processors) × (0 < place) × (place ≤ processors)
                × (processors ≤ 64) }
            ensures { (result.table_id ≡ table.entry.now) × (result.me.0.count ≡ processors)
                × IsRejoinedFrom (place + 1) result.me.0 result.me.1 }
        { sections_in_threads(rt, table, operator, place + 1, processors) },
    );
    table.join_seat(&mut operator, seat);
    operator
}

#[test]
fn eight_threads_on_one_table(rt: HostRuntime) -> Result<(), Fail> {
    let OpenTable { table, seat } = open_table(rt.alloc(), 8)?;
    let operator = sections_in_threads(&rt, &table, seat, 1, 8);
    let closed = table.close(operator);
    let twice = 2 * u64::from(SECTIONS);
    check_closed(&rt, &closed, &[twice; 8], 1);
    assert_eq!(rt; closed.book.entries, 0);
    Ok(())
}
