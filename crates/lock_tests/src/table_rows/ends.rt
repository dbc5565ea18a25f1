ghost use Rattle.std.specs.Prelude.{◌≡◌, ℕ, ◌+◌, ◌-◌, ◌<◌, ◌≤◌};
ghost use Rattle.rm_table.specs.Rests.{OpensFrom, IsRejoinedFrom};

use super::seats::{LockTable, Seat, open_table, section};
use crate::closed::check_closed;
use rm_core::Heard;
use rm_table::OpenTable;
use std::alloc::Global;
use std::process::Abort;
use std::test::Fail;

/// Splits off the seats of the places from `place` on, makes a section in each, and joins them again.
#[tactic(auto, using(rm_table::proofs::Resting::after_split, rm_table::proofs::Resting::after_all_splits, rm_table::proofs::Resting::may_join, rm_table::proofs::Resting::after_join))]
fn one_section_each(
    rt: &impl Abort,
    table: &LockTable,
    operator: &mut Seat,
    place: u32,
    processors: u32,
)
    requires table { operator.old.table_id ≡ table.now }
    requires opening { OpensFrom place operator.old.me.0 operator.old.me.1 }
    requires count { operator.old.me.0.count ≡ processors }
    requires above { 0 < place }
    requires within { place ≤ processors + 1 }
    requires few { processors ≤ 64 }
    ensures table { operator.new.table_id ≡ operator.old.table_id }
    ensures count { operator.new.me.0.count ≡ processors }
    ensures rejoined { IsRejoinedFrom place operator.new.me.0 operator.new.me.1 }
{
    if place > processors {
        return;
    }
    let mut seat = table.split_seat(operator, place);
    assert_eq!(rt; section(table, &mut seat), Heard::Held);
    one_section_each(rt, table, operator, place + 1, processors);
    table.join_seat(operator, seat);
}

/// Opens a table of so many processors, makes a section in each, and closes it.
fn check_ends(rt: &impl Abort, alloc: Global, processors: u32, trackers: &[u64]) -> Result<(), Fail>
    requires some { 0 < processors }
    requires few { processors ≤ 64 }
{
    let OpenTable { table, mut seat } = open_table(alloc, processors)?;
    one_section_each(rt, &table, &mut seat, 1, processors);
    check_closed(rt, &table.close(seat), trackers, 1);
    Ok(())
}

#[test]
fn opens_and_closes_for_one_processor_and_for_64(rt: HostRuntime) -> Result<(), Fail> {
    check_ends(&rt, rt.alloc(), 1, &[2])?;
    check_ends(&rt, rt.alloc(), 64, &[2; 64])
}
