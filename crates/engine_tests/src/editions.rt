ghost use Rattle.std.specs.Prelude.{IfOk};
ghost use Rattle.fw_rule.specs.WellFormed.{IsWellFormed};
ghost use Rattle.rule_chain.specs.Configuration.{HasRulesOf};

use crate::drafts::{Deed, added};
use fw_rule::Command;
use generation_store::{Edition, Store};
use rule_chain::Config;
use rule_edits::{apply, is_changing, touches_rules};
use state_asks::FlowName;
use std::alloc::Global;
use std::process::Abort;
use std::sync::Arc;
use std::test::Fail;

/// A rule by its number.
type Numbered = (u16, Deed);

/// A configuration with these rules added in this order.
fn configured(alloc: Global, rules: &[Numbered]) -> Result<Config, Fail> {
    let mut config = Config::new(alloc)?;
    for (number, deed) in rules {
        config = added(alloc, config, *number, 0, *deed)?;
    }
    Ok(config)
}

/// The configuration after a command that touches no rule.
fn edited(alloc: Global, config: &Config, command: &Command) -> Result<Config, Fail>
    requires { IsWellFormed command.now }
    ensures { IfOk result (HasRulesOf config.now) }
{
    if is_changing(command) && !touches_rules(command) {
        Ok(apply(alloc, config, command)?)
    } else {
        Err("an edit of rules")?
    }
}

/// The seventh edition, of that configuration.
fn edition(alloc: Global, rules: &[Numbered]) -> Result<Arc<Edition>, Fail> {
    Ok(Edition::build(alloc, 7, configured(alloc, rules)?)?)
}

const CALLING: &[Numbered] = &[
    (100, Deed::Call(300)),
    (100, Deed::Count),
    (200, Deed::Allow),
    (300, Deed::Return),
];

/// For each place the target of its jump, and the place behind its number.
const JUMPS: [(u32, u32); 5] = [(3, 2), (2, 2), (3, 3), (4, 4), (5, 5)];

/// Numbers, each with the first place from it on.
const FIRST_PLACES: [(u16, usize); 6] = [
    (1, 0),
    (100, 0),
    (101, 2),
    (300, 3),
    (301, 4),
    (65535, 4),
];

fn check_jumps(rt: &impl Abort, edition: &Edition) {
    assert_eq!(rt; edition.jumps().len(), 5);
    for (jump, wanted) in edition.jumps().iter().zip(&JUMPS) {
        assert_eq!(rt; (jump.target, jump.after), *wanted);
    }
}

fn check_first_places(rt: &impl Abort, edition: &Edition) {
    for (number, place) in FIRST_PLACES {
        assert_eq!(rt; edition.first_from(number), place);
    }
}

#[test]
fn jumps_of_the_call_script(rt: HostRuntime) -> Result<(), Fail> {
    let edition = edition(rt.alloc(), CALLING)?;
    check_jumps(&rt, &edition);
    check_first_places(&rt, &edition);
    Ok(())
}

const NAMED: &[Numbered] = &[
    (30, Deed::Keep(b'2')),
    (10, Deed::Check(b'1')),
    (20, Deed::CheckAny),
];

/// For each identity its place; the last one is of no rule.
const PLACES: [(u32, Option<usize>); 5] = [
    (0, Some(3)),
    (1, Some(2)),
    (2, Some(0)),
    (3, Some(1)),
    (4, None),
];

/// For each place the flow name that is looked up there.
const NAMES: [(usize, FlowName); 4] = [
    (0, FlowName::Named(2)),
    (1, FlowName::Any),
    (2, FlowName::Named(1)),
    (3, FlowName::Any),
];

fn check_facts(rt: &impl Abort, edition: &Edition) {
    assert_eq!(rt; (edition.number(), edition.facts().number), (7, 7));
    assert_eq!(rt; edition.facts().rules.as_slice(), [0, 1, 2, 3].as_slice());
    assert_eq!(rt; edition.config().rules().len(), 4);
}

fn check_places(rt: &impl Abort, edition: &Edition) {
    for (id, place) in PLACES {
        assert_eq!(rt; edition.place_of(id), place);
    }
}

fn check_names(rt: &impl Abort, edition: &Edition) {
    for (place, name) in NAMES {
        assert!(rt; place < edition.config().rules().len());
        assert_eq!(rt; edition.name_of(place), name);
    }
}

/// A store with the edition of these rules alone.
fn stored(alloc: Global, rules: &[Numbered]) -> Result<Store, Fail> {
    let edition = edition(alloc, rules)?;
    let mut store = Store::new(alloc);
    store.ready()?;
    store.push(edition);
    Ok(store)
}

#[test]
fn places_and_names_of_rules(rt: HostRuntime) -> Result<(), Fail> {
    let store = stored(rt.alloc(), NAMED)?;
    assert_eq!(rt; store.all().len(), 1);
    for edition in &store.into_all() {
        check_facts(&rt, edition);
        check_places(&rt, edition);
        check_names(&rt, edition);
    }
    Ok(())
}

const KEPT: &[Numbered] = &[(30, Deed::Keep(b'2')), (20, Deed::CheckAny)];

const KEPT_ALONE: &[Numbered] = &[(30, Deed::Keep(b'2'))];

/// The eighth edition, of these rules, behind the last one.
fn check_behind(
    rt: &impl Abort,
    alloc: Global,
    last: &Edition,
    rules: &[Numbered],
) -> Result<(), Fail> {
    let config = configured(alloc, rules)?;
    let next = Edition::build_behind(alloc, last, 8, config)?;
    assert_eq!(rt; next.number(), 8);
    assert_eq!(rt; next.config().rules().len(), rules.len().saturating_add(1));
    assert_eq!(rt;
        next.gates().as_slice().len(),
        rules.len().saturating_add(1)
    );
    Ok(())
}

/// The eighth edition, of the same rules, beside the last one.
fn check_beside(rt: &impl Abort, alloc: Global, last: &Edition) -> Result<(), Fail> {
    let edit = Command::SetMask {
        disable: 2,
        enable: 0,
    };
    let config = edited(alloc, last.config(), &edit)?;
    let beside = Edition::build_beside(alloc, last, 8, config)?;
    assert_eq!(rt; (beside.number(), beside.facts().number), (8, 8));
    assert_eq!(rt; beside.config().disabled(), 2);
    Ok(())
}

#[test]
fn editions_behind_another(rt: HostRuntime) -> Result<(), Fail> {
    let last = edition(rt.alloc(), KEPT)?;
    check_behind(&rt, rt.alloc(), &last, KEPT)?;
    check_behind(&rt, rt.alloc(), &last, KEPT_ALONE)?;
    check_beside(&rt, rt.alloc(), &last)
}
