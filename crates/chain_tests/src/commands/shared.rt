use super::steps::{Step, command_of};
use super::{after, applied};
use fw_base::Name;
use fw_rule::{Command, TableCommand};
use rule_chain::Config;
use rule_edits::{apply, is_changing, touches_rules, untouched_rules_stay};
use std::alloc::Global;
use std::process::Abort;
use std::sync::Arc;
use std::test::Fail;
use std::thread::join;

/// The edits of a setting, a mask and one table, in turn.
fn edit_of(edit: u8) -> Step {
    match edit % 3 {
        0 => Step::Most(u32::from(edit) + 1),
        1 => Step::Mask(2, 4),
        _ => Step::AddNumber(b'n', u32::from(edit)),
    }
}

fn is_of_rules(alloc: Global, step: Step) -> Result<bool, Fail> {
    let command = command_of(alloc, step)?;
    Ok(touches_rules(&command))
}

fn edited_once(alloc: Global, config: &Config, step: Step) -> Result<Config, Fail> {
    if is_of_rules(alloc, step)? {
        return Err("an edit of rules")?;
    }
    applied(alloc, config, step)
}

/// What the edit makes of the last configuration.
fn edited_last(alloc: Global, kept: &[Config], step: Step) -> Result<Config, Fail> {
    match kept.last() {
        Some(last) => edited_once(alloc, last, step),
        None => Err("no configuration")?,
    }
}

/// That many edits, one after the other, and all that they made.
fn edited(alloc: Global, first: Config, count: u8) -> Result<Vec<Config>, Fail> {
    let mut kept = Vec::new(alloc);
    kept.push(first)?;
    for edit in 0..count {
        kept.push(edited_last(alloc, &kept, edit_of(edit))?)?;
    }
    Ok(kept)
}

/// That the edits were made and left each rule one owner.
fn assert_unshared(rt: &impl Abort, kept: &[Config]) -> Result<(), Fail> {
    let (Some(first), Some(last)) = (kept.first(), kept.last()) else {
        return Err("two configurations")?;
    };
    assert_eq!(rt; (first.settings().max, last.settings().max), (16384, 199));
    assert_eq!(rt; (first.disabled(), last.disabled()), (0, 2));
    assert_eq!(rt;
        (
            first.tables().entries().len(),
            last.tables().entries().len()
        ),
        (2, 2)
    );
    for rule in last.rules() {
        assert_eq!(rt; Arc::strong_count(rule), 1);
    }
    Ok(())
}

/// Configurations that have one list of rules have one owner of each rule.
#[test]
fn edits_copy_no_rules(rt: HostRuntime) -> Result<(), Fail> {
    let alloc = rt.alloc();
    let steps = [Step::Lookup(7, b'a', b'n'), Step::AddNet(b'a', 8)];
    let kept = edited(alloc, after(alloc, steps.as_slice())?, 201)?;
    assert_unshared(&rt, kept.as_slice())
}

/// How many rules a `flush` leaves of the configuration, 0 where it is refused.
fn left_by_flush(alloc: Global, config: &Config) -> usize {
    match apply(alloc, config, &Command::Flush) {
        Ok(flushed) => flushed.rules().len(),
        Err(_) => 0,
    }
}

#[test]
fn threads_share_a_configuration(rt: HostRuntime) -> Result<(), Fail> {
    let alloc = rt.alloc();
    let config = after(alloc, &[Step::Lookup(7, b'a', b'n'), Step::Add(9, 31)])?;
    let shared = &config;
    let (left, held) = join(
        &rt,
        || -> usize { left_by_flush(alloc, shared) },
        || -> usize { shared.rules().len() },
    );
    assert_eq!(rt; (left, held, config.rules().len()), (2, 3, 3));
    Ok(())
}

#[test]
fn listings_change_nothing(rt: HostRuntime) -> Result<(), Fail> {
    let name = Name::new(rt.alloc(), b"n")?;
    assert!(rt; !is_changing(&Command::ListRules));
    assert!(rt; !is_changing(&Command::Table(name, TableCommand::ListEntries)));
    assert!(rt; is_changing(&Command::Flush));
    assert!(rt; touches_rules(&Command::Flush));
    untouched_rules_stay();
    Ok(())
}
