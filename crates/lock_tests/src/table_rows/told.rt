ghost use Rattle.std.specs.Prelude.{◌≡◌};
ghost use Rattle.rm_table.specs.Moves.{informed_view, receipt_view};
ghost use Rattle.rm_table.specs.Rests.{IsIdle, IsAtRest};

use super::publication::{Single, open_single, publish_next, renew, take_token};
use super::seats::{LockTable, Seat, regain_after_refusal, section};
use crate::closed::check_closed;
use rm_core::Heard;
use std::test::Fail;

/// The processor hears what the operator has published.
fn tell(table: &LockTable, operator: &mut Seat, processor: &mut Seat)
    requires table { operator.old.table_id ≡ table.now }
    requires same { processor.old.table_id ≡ table.now }
    requires at_rest { IsAtRest operator.old.me.0 operator.old.me.1 }
    requires idle { IsIdle processor.old.me.0 processor.old.me.1 }
    ensures table { operator.new.table_id ≡ operator.old.table_id }
    ensures same { processor.new.table_id ≡ processor.old.table_id }
    ensures operator { operator.new.me ≡ operator.old.me }
    ensures at_rest { IsAtRest operator.new.me.0 operator.new.me.1 }
    ensures place { processor.new.me.0.place ≡ processor.old.me.0.place }
    ensures told { processor.new.me.0
        ≡ informed_view processor.old.me.0 (receipt_view operator.old.me.0) }
    ensures idle { IsIdle processor.new.me.0 processor.new.me.1 }
{
    let receipt = table.split_seat(operator, 0);
    table.join_seat(processor, receipt);
}

/// A processor that was told of a publication is refused, and comes in at that publication.
#[test]
fn told_seat_meets_the_edition(rt: HostRuntime) -> Result<(), Fail> {
    let Single {
        table,
        mut operator,
        mut processor,
    } = open_single(rt.alloc())?;
    tell(&table, &mut operator, &mut processor);
    assert_eq!(rt; section(&table, &mut processor), Heard::Held);
    take_token(&rt, &table, &mut operator);
    renew(&rt, &table, &mut operator, 2);
    publish_next(&rt, &table, &mut operator, 2);
    tell(&table, &mut operator, &mut processor);
    regain_after_refusal(&rt, &table, &mut processor, 2);
    table.join_seat(&mut operator, processor);
    check_closed(&rt, &table.close(operator), &[6], 2);
    Ok(())
}
