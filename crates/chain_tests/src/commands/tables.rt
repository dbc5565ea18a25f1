use super::after;
use super::steps::{Step, letter};
use fw_base::Addr;
use fw_rule::{Settings, TableType};
use lookup_tables::Table;
use rule_chain::Config;
use std::alloc::Global;
use std::test::Fail;

/// How many entries the table has; a hundred more where it is of numbers.
fn entries_of(alloc: Global, config: &Config, name: u8) -> Result<Option<usize>, Fail> {
    let name = letter(alloc, name)?;
    match config.table(&name) {
        Some(Table::Addresses(table)) => Ok(Some(table.entries().len())),
        Some(Table::Numbers(table)) => Ok(Some(100 + table.entries().len())),
        None => Ok(None),
    }
}

#[test]
fn tables_are_made_changed_and_exchanged(rt: HostRuntime) -> Result<(), Fail> {
    let alloc = rt.alloc();
    let steps = [
        Step::Lookup(1, b'a', b'n'),
        Step::AddNumber(b'n', 80),
        Step::AddNet(b'm', 8),
        Step::AddNet(b'm', 9),
        Step::SwapTables(b'm', b'a'),
        Step::RemoveNet(b'a', 9),
        Step::Destroy(b'm'),
        Step::Create(b'c', TableType::Addresses),
    ];
    let config = after(alloc, steps.as_slice())?;
    for (name, want) in [
        (b'a', Some(1)),
        (b'n', Some(101)),
        (b'm', None),
        (b'c', Some(0)),
    ] {
        assert_eq!(rt; entries_of(alloc, &config, name)?, want);
    }
    Ok(())
}

fn settings_after(alloc: Global, steps: &[Step]) -> Result<Settings, Fail> {
    let config = after(alloc, steps)?;
    Ok(config.settings())
}

#[test]
fn settings_and_addresses(rt: HostRuntime) -> Result<(), Fail> {
    let alloc = rt.alloc();
    let steps = [Step::Local(2, 1), Step::Local(1, 2), Step::Most(1)];
    let settings = settings_after(alloc, steps.as_slice())?;
    assert_eq!(rt; (settings.max, settings.syn, settings.keep), (1, 20, false));
    let kept = settings_after(alloc, &[Step::KeepStates(true)])?;
    assert_eq!(rt; (kept.max, kept.keep), (16384, true));
    let config = after(alloc, steps.as_slice())?;
    assert_eq!(rt; config.locals(), [Addr(2), Addr(1)].as_slice());
    Ok(())
}
