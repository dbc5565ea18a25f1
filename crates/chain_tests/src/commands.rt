use fw_rule::Rule;
use rule_chain::Config;
use rule_edits::{ApplyFault, apply, apply_owned};
use std::alloc::{AllocError, Global};
use std::process::Abort;
use std::test::Fail;
use steps::{Step, command_of};

mod many;
mod names;
mod refusals;
mod rules;
mod shared;
mod steps;
mod tables;

/// The configuration after one more step.
fn after_one(alloc: Global, config: Config, step: Step) -> Result<Config, Fail> {
    let command = command_of(alloc, step)?;
    Ok(apply_owned(alloc, config, &command)?)
}

/// The configuration after the steps.
fn after(alloc: Global, steps: &[Step]) -> Result<Config, Fail> {
    let mut config = Config::new(alloc)?;
    for step in steps {
        config = after_one(alloc, config, *step)?;
    }
    Ok(config)
}

/// The configuration after that step, so many times.
fn after_each(alloc: Global, first: Config, step: Step, count: u16) -> Result<Config, Fail> {
    let mut config = first;
    for _ in 0..count {
        config = after_one(alloc, config, step)?;
    }
    Ok(config)
}

/// The configuration that the step makes of this one, which stays.
fn applied(alloc: Global, config: &Config, step: Step) -> Result<Config, Fail> {
    let command = command_of(alloc, step)?;
    Ok(apply(alloc, &config, &command)?)
}

/// What refuses the step.
fn fault_of(alloc: Global, config: &Config, step: Step) -> Result<Option<ApplyFault>, Fail> {
    let command = command_of(alloc, step)?;
    Ok(apply(alloc, &config, &command).err())
}

/// That each step is refused with its fault, or is accepted.
fn assert_faults(
    rt: &impl Abort,
    alloc: Global,
    config: &Config,
    rows: &[(Step, Option<ApplyFault>)],
) -> Result<(), Fail> {
    for (place, (step, fault)) in rows.iter().enumerate() {
        assert_eq!(rt; fault_of(alloc, config, *step)?, *fault, "row {place}");
    }
    Ok(())
}

fn shown_rule(rule: &Rule) -> (u16, u8, u32) {
    (rule.number, rule.set, rule.counter)
}

/// The number, the set and the counter number of each rule.
fn shown(alloc: Global, config: &Config) -> Result<Vec<(u16, u8, u32)>, AllocError> {
    let mut shown = Vec::new(alloc);
    for rule in config.rules() {
        shown.push(shown_rule(rule))?;
    }
    Ok(shown)
}
