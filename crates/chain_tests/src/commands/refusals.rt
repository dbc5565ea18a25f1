ghost use Rattle.fw_rule.specs.WellFormed.{IsWellFormed};
ghost use Rattle.rule_edits.specs.Changing.{IsChanging};

use super::after;
use super::steps::{Step, command_of};
use fw_rule::{Command, TableType};
use rule_chain::Config;
use rule_edits::{ApplyFault, apply, apply_owned};
use std::alloc::Global;
use std::test::Fail;

/// The first row whose step isn't refused with its fault, by `apply` and by `apply_owned`, after the
/// steps, or where the first changes the rules or the tables that it was asked of.
fn wrong_row(
    alloc: Global,
    steps: &[Step],
    rows: &[(Step, ApplyFault)],
) -> Result<Option<usize>, Fail> {
    for (place, (step, fault)) in rows.iter().enumerate() {
        if !is_row_right(alloc, steps, *step, *fault)? {
            return Ok(Some(place));
        }
    }
    Ok(None)
}

fn is_row_right(
    alloc: Global,
    steps: &[Step],
    step: Step,
    fault: ApplyFault,
) -> Result<bool, Fail> {
    let command = command_of(alloc, step)?;
    let config = after(alloc, steps)?;
    Ok(is_refused(alloc, config, &command, fault))
}

fn is_refused(alloc: Global, config: Config, command: &Command, fault: ApplyFault) -> bool
    requires formed { IsWellFormed command.now }
    requires changing { IsChanging command.now }
{
    let (rules, tables) = (config.rules().len(), config.tables().entries().len());
    let lent = lent_fault(alloc, &config, command);
    let same = rules == config.rules().len() && tables == config.tables().entries().len();
    let owned = owned_fault(alloc, config, command);
    same && lent == Some(fault) && owned == Some(fault)
}

fn lent_fault(alloc: Global, config: &Config, command: &Command) -> Option<ApplyFault>
    requires formed { IsWellFormed command.now }
    requires changing { IsChanging command.now }
{
    apply(alloc, config, command).err()
}

fn owned_fault(alloc: Global, config: Config, command: &Command) -> Option<ApplyFault>
    requires formed { IsWellFormed command.now }
    requires changing { IsChanging command.now }
{
    apply_owned(alloc, config, command).err()
}

const OF_NUMBERS: [(Step, ApplyFault); 15] = [
    (Step::Delete(8, 8), ApplyFault::NoSuchRule),
    (Step::Delete(7, 8), ApplyFault::NoSuchRule),
    (Step::Delete(8, 65535), ApplyFault::NoSuchRule),
    (Step::Zero(65535, 8), ApplyFault::NoSuchRule),
    (Step::MoveRule(8, 1), ApplyFault::NoSuchRule),
    (Step::Add(65535, 0), ApplyFault::ReservedRule),
    (Step::Delete(7, 65535), ApplyFault::ReservedRule),
    (Step::Delete(65535, 8), ApplyFault::ReservedRule),
    (Step::MoveRule(65535, 1), ApplyFault::ReservedRule),
    (
        Step::Mask(0x8000_0000, 0x8000_0000),
        ApplyFault::ReservedSet,
    ),
    (Step::MoveSet(31, 1), ApplyFault::ReservedSet),
    (Step::MoveSet(1, 31), ApplyFault::ReservedSet),
    (Step::MoveRule(65535, 31), ApplyFault::ReservedSet),
    (Step::Swap(31, 31), ApplyFault::ReservedSet),
    (Step::Swap(1, 31), ApplyFault::ReservedSet),
];

const WITH_TABLES: [Step; 3] = [
    Step::Lookup(7, b'a', b'n'),
    Step::AddNet(b'a', 8),
    Step::Mask(1, 0),
];

const OF_TABLES: [(Step, ApplyFault); 15] = [
    (Step::Destroy(b'x'), ApplyFault::NoSuchTable),
    (Step::RemoveNet(b'x', 8), ApplyFault::NoSuchTable),
    (Step::Clear(b'x'), ApplyFault::NoSuchTable),
    (Step::SwapTables(b'a', b'x'), ApplyFault::NoSuchTable),
    (Step::SwapTables(b'x', b'a'), ApplyFault::NoSuchTable),
    (
        Step::Create(b'a', TableType::Numbers),
        ApplyFault::EntryExists,
    ),
    (Step::AddNet(b'a', 8), ApplyFault::EntryExists),
    (Step::RemoveNet(b'a', 9), ApplyFault::NoSuchEntry),
    (Step::Destroy(b'n'), ApplyFault::TableInUse),
    (Step::AddNumber(b'a', 1), ApplyFault::WrongType),
    (Step::AddNumber(b'x', 1), ApplyFault::WrongType),
    (Step::RemoveNet(b'n', 8), ApplyFault::WrongType),
    (Step::SwapTables(b'a', b'n'), ApplyFault::WrongType),
    (Step::Lookup(8, b'n', b'n'), ApplyFault::WrongType),
    (Step::Lookup(8, b'x', b'x'), ApplyFault::WrongType),
];

#[test]
fn commands_are_refused(rt: HostRuntime) -> Result<(), Fail> {
    let alloc = rt.alloc();
    assert_eq!(rt;
        wrong_row(alloc, &[Step::Add(7, 0)], OF_NUMBERS.as_slice())?,
        None
    );
    assert_eq!(rt;
        wrong_row(alloc, WITH_TABLES.as_slice(), OF_TABLES.as_slice())?,
        None
    );
    assert_eq!(rt; ApplyFault::TooManyRules.word(), "TooManyRules");
    Ok(())
}
