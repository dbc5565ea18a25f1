use super::seats::{Pair, open_pair, regain_token, section, take_tokens};
use rm_core::Heard;
use rm_table::Tried;
use std::test::Fail;

/// A reader that is in keeps a write waiting; one that begins behind the revocation is refused.
#[test]
fn drain_waits_for_the_reader(rt: HostRuntime) -> Result<(), Fail> {
    let Pair {
        table,
        mut operator,
        mut first,
        mut second,
    } = open_pair(rt.alloc())?;
    table.raise(&mut first);
    assert_eq!(rt; table.check(&mut first), Heard::Held);
    take_tokens(&rt, &table, &mut operator);
    assert_eq!(rt; table.drain(&mut operator, 2), Heard::Drained);
    assert_eq!(rt; table.drain(&mut operator, 1), Heard::NotOut);
    assert_eq!(rt; section(&table, &mut second), Heard::Revoked(2));
    table.lower(&mut first);
    assert_eq!(rt; table.drain(&mut operator, 1), Heard::Drained);
    Ok(())
}

/// The lock behind and the tokens between two processors and the operator.
#[test]
fn token_is_regained_under_the_lock_behind(rt: HostRuntime) -> Result<(), Fail> {
    let Pair {
        table,
        mut operator,
        mut first,
        mut second,
    } = open_pair(rt.alloc())?;
    assert_eq!(rt; table.take_back(&mut operator), Tried::Taken);
    assert_eq!(rt; table.take_back(&mut second), Tried::HeldBy(3));
    assert_eq!(rt; table.read_number(&mut operator), 1);
    table.give_back(&mut operator);
    assert_eq!(rt; regain_token(&rt, &table, &mut first), 1);
    assert_eq!(rt; section(&table, &mut first), Heard::Held);
    assert_eq!(rt; section(&table, &mut second), Heard::Held);
    Ok(())
}
