use super::steps::Step;
use super::{after, applied, shown};
use rule_chain::Config;
use std::alloc::Global;
use std::process::Abort;
use std::test::Fail;

/// What the rules are after some steps: the number, the set and the counter number of each.
#[derive(Clone, Copy)]
struct Row<'a> {
    steps: &'a [Step],
    rules: &'a [(u16, u8, u32)],
}

/// The first row whose rules are others.
fn wrong_row(alloc: Global, rows: &[Row<'_>]) -> Result<Option<usize>, Fail> {
    for (place, row) in rows.iter().enumerate() {
        let config = after(alloc, row.steps)?;
        if shown(alloc, &config)?.as_slice() != row.rules {
            return Ok(Some(place));
        }
    }
    Ok(None)
}

fn assert_shown(
    rt: &impl Abort,
    alloc: Global,
    config: &Config,
    want: &[(u16, u8, u32)],
) -> Result<(), Fail> {
    assert_eq!(rt; shown(alloc, config)?.as_slice(), want);
    Ok(())
}

#[test]
fn rules_after_commands(rt: HostRuntime) -> Result<(), Fail> {
    let rows = [
        Row {
            steps: &[Step::Add(0, 0), Step::Add(0, 0)],
            rules: &[(100, 0, 1), (200, 0, 2), (65535, 31, 0)],
        },
        Row {
            steps: &[Step::Add(65434, 0), Step::Add(0, 0), Step::Add(0, 0)],
            rules: &[(65434, 0, 1), (65534, 0, 2), (65534, 0, 3), (65535, 31, 0)],
        },
        Row {
            steps: &[
                Step::Add(7, 0),
                Step::Add(5, 1),
                Step::ZeroAll,
                Step::Delete(7, 7),
            ],
            rules: &[(5, 1, 3), (65535, 31, 5)],
        },
        Row {
            steps: &[
                Step::Add(1, 1),
                Step::Add(2, 31),
                Step::Mask(2, 0),
                Step::DeleteSet(9),
                Step::Flush,
            ],
            rules: &[(2, 31, 2), (65535, 31, 0)],
        },
        Row {
            steps: &[Step::Add(2, 31), Step::DeleteSet(31)],
            rules: &[(65535, 31, 0)],
        },
    ];
    assert_eq!(rt; wrong_row(rt.alloc(), rows.as_slice())?, None);
    Ok(())
}

#[test]
fn equal_numbers_and_fresh_counters(rt: HostRuntime) -> Result<(), Fail> {
    let alloc = rt.alloc();
    let config = after(alloc, &[Step::Add(7, 0), Step::Add(5, 31), Step::Add(7, 2)])?;
    let zeroed = applied(alloc, &config, Step::Zero(7, 7))?;
    let before = [(5, 31, 2), (7, 0, 1), (7, 2, 3), (65535, 31, 0)];
    let behind = [(5, 31, 2), (7, 0, 4), (7, 2, 5), (65535, 31, 0)];
    assert_shown(&rt, alloc, &config, before.as_slice())?;
    assert_shown(&rt, alloc, &zeroed, behind.as_slice())?;
    assert_eq!(rt; (config.counters(), zeroed.counters()), (4, 6));
    Ok(())
}

#[test]
fn sets_are_moved_and_exchanged(rt: HostRuntime) -> Result<(), Fail> {
    let alloc = rt.alloc();
    let steps = [
        Step::Add(1, 1),
        Step::Add(2, 2),
        Step::Add(3, 31),
        Step::Add(4, 4),
        Step::Mask(6, 0x8000_0002),
        Step::Swap(1, 2),
        Step::Swap(3, 3),
        Step::MoveSet(4, 4),
        Step::MoveSet(4, 5),
        Step::MoveRule(3, 6),
    ];
    let config = after(alloc, steps.as_slice())?;
    let want = [(1, 2, 1), (2, 1, 2), (3, 6, 3), (4, 5, 4), (65535, 31, 0)];
    assert_shown(&rt, alloc, &config, want.as_slice())?;
    assert_eq!(rt; config.disabled(), 4);
    Ok(())
}
