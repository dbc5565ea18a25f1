use super::names::named;
use super::steps::Step;
use super::{after_each, after_one, assert_faults};
use rule_chain::Config;
use rule_edits::ApplyFault;
use std::alloc::Global;
use std::test::Fail;

/// A configuration of 64 flow names, by 63 rules, whose counter numbers all were given out.
fn full(alloc: Global) -> Result<Config, Fail> {
    let added = after_each(alloc, named(alloc, 64)?, Step::Add(7, 0), 4095 - 63)?;
    after_each(alloc, added, Step::ZeroAll, 4095)
}

const OF_THE_FULL: [(Step, Option<ApplyFault>); 5] = [
    (Step::Zero(65535, 65535), Some(ApplyFault::TooManyCounters)),
    (Step::Zero(8, 7), Some(ApplyFault::NoSuchRule)),
    (Step::Add(0, 0), Some(ApplyFault::TooManyCounters)),
    (Step::Keep(64), Some(ApplyFault::TooManyCounters)),
    (Step::Add(65535, 0), Some(ApplyFault::ReservedRule)),
];

#[test]
fn counter_numbers_run_out(rt: HostRuntime) -> Result<(), Fail> {
    let alloc = rt.alloc();
    let config = full(alloc)?;
    assert_eq!(rt; config.counters(), 16_777_216);
    assert_faults(&rt, alloc, &config, OF_THE_FULL.as_slice())
}

/// A configuration with 30,000 rules of number 7.
fn many_rules(alloc: Global) -> Result<Config, Fail> {
    after_each(alloc, Config::new(alloc)?, Step::Add(7, 0), 30_000)
}

/// The time of these is a walk over the rules and one over the numbers, and not their product.
#[test]
fn many_numbers_and_addresses(rt: HostRuntime) -> Result<(), Fail> {
    let alloc = rt.alloc();
    let config = after_one(alloc, many_rules(alloc)?, Step::ZeroTimes(7, 30_000))?;
    assert_eq!(rt; config.counters(), 60_001);
    let config = after_one(alloc, config, Step::DeleteTimes(7, 30_000))?;
    assert_eq!(rt; config.rules().len(), 1);
    let config = after_one(alloc, config, Step::LocalTwice(30_000))?;
    assert_eq!(rt; config.locals().len(), 30_000);
    Ok(())
}
