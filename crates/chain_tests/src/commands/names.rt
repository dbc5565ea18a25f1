use super::steps::Step;
use super::{after, after_one, assert_faults};
use fw_base::Name;
use fw_rule::TableType;
use rule_chain::Config;
use rule_edits::ApplyFault;
use std::alloc::Global;
use std::process::Abort;
use std::test::Fail;

/// A configuration of that many flow names.
pub(super) fn named(alloc: Global, count: u8) -> Result<Config, Fail> {
    let mut config = Config::new(alloc)?;
    for name in 1..count {
        config = after_one(alloc, config, Step::Check(name))?;
    }
    Ok(config)
}

/// `a` is a table of addresses, in which no port can be looked up.
const WITH_64_NAMES: [(Step, Option<ApplyFault>); 7] = [
    (Step::Check(64), Some(ApplyFault::TooManyNames)),
    (Step::Keep(64), Some(ApplyFault::TooManyNames)),
    (Step::KeepLookup(64, b'a'), Some(ApplyFault::TooManyNames)),
    (Step::KeepLookup(63, b'a'), Some(ApplyFault::WrongType)),
    (Step::Check(63), None),
    (Step::Keep(1), None),
    (Step::Add(65535, 0), Some(ApplyFault::ReservedRule)),
];

#[test]
fn too_many_names(rt: HostRuntime) -> Result<(), Fail> {
    let alloc = rt.alloc();
    let names = named(alloc, 64)?;
    assert_eq!(rt; names.names().len(), 64);
    let config = after_one(alloc, names, Step::Create(b'a', TableType::Addresses))?;
    assert_faults(&rt, alloc, &config, WITH_64_NAMES.as_slice())?;
    assert_eq!(rt; ApplyFault::TooManyNames.word(), "TooManyNames");
    Ok(())
}

fn assert_names(rt: &impl Abort, names: &[Name]) -> Result<(), Fail> {
    let [first, second, third] = names else {
        return Err("three names")?;
    };
    assert_eq!(rt; first.bytes(), b"default".as_slice());
    assert_eq!(rt; second.bytes(), [b'n', 7].as_slice());
    assert_eq!(rt; third.bytes(), [b'n', 5].as_slice());
    Ok(())
}

#[test]
fn names_have_numbers(rt: HostRuntime) -> Result<(), Fail> {
    let steps = [
        Step::Keep(7),
        Step::Check(5),
        Step::Keep(7),
        Step::Delete(100, 100),
    ];
    let config = after(rt.alloc(), steps.as_slice())?;
    assert_names(&rt, config.names())
}
