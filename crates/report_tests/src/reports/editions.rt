ghost use Rattle.std.specs.Prelude.{◌≡◌, IfOk, [], ◌∷◌, false};
ghost use Rattle.fw_rule.specs.FlowName.{IsFlowName};
ghost use Rattle.fw_rule.specs.WellFormed.{IsAddrSpec, IsBody, IsKey, IsWellFormed};
ghost use Rattle.fw_rule.specs.declared.addr_item.AddrItem.TheVariants as items;
ghost use Rattle.fw_rule.specs.declared.test.Test.TheVariants as tests;

use fw_base::{Addr, Name, Prefix};
use fw_rule::{
    Action, AddrItem, AddrSpec, Body, Command, Family, Items, Key, Opt, RuleDraft, StateOpt,
    TableCommand, Test,
};
use generation_store::Edition;
use rule_chain::Config;
use rule_edits::{apply, is_changing};
use std::alloc::{AllocError, Global};
use std::process::Abort;
use std::sync::Arc;
use std::test::Fail;

/// What makes a configuration of the one before.
#[derive(Clone, Copy)]
pub(super) enum Change {
    CheckState,
    AllowSetup,
    TableEntry,
    Disable,
}

fn one<T: Drop>(alloc: Global, item: T) -> Result<Items<T>, AllocError>
    ensures { IfOk result (λ items. items ≡ item ∷ []) }
{
    let mut items = Vec::new(alloc);
    items.push(item)?;
    Ok(Items::from_vec(items))
}

fn any(alloc: Global) -> Result<AddrSpec, Fail>
    ensures { IfOk result (λ spec. spec.items ≡ items.Any ∷ []) }
{
    Ok(AddrSpec {
        negated: false,
        items: one(alloc, AddrItem::Any)?,
    })
}

fn default_name(alloc: Global) -> Result<Name, Fail>
    ensures { IfOk result (λ name. IsFlowName name) }
{
    Ok(Name::new(alloc, b"default")?)
}

/// `setup`
fn setup(alloc: Global) -> Result<Items<Opt>, Fail>
    ensures { IfOk result (λ options.
        options ≡ record { negated = false; test = tests.Setup } ∷ []) }
{
    let option = Opt {
        negated: false,
        test: Test::Setup,
    };
    Ok(one(alloc, option)?)
}

/// `tcp from SOURCE to any setup keep-state :NAME`
fn setup_from(alloc: Global, source: AddrSpec, name: Name) -> Result<Body, Fail>
    requires source { IsAddrSpec source }
    requires name { IsFlowName name }
    ensures { IfOk result (λ body. IsBody body) }
{
    Ok(Body {
        family: Family::AnyIp,
        protocol: 6,
        source,
        source_ports: None,
        destination: any(alloc)?,
        destination_ports: None,
        options: setup(alloc)?,
        state: Some(StateOpt::Keep(name)),
        state_at: 1,
    })
}

/// `tcp from any to any setup keep-state`
fn setup_body(alloc: Global) -> Result<Body, Fail>
    ensures { IfOk result (λ body. IsBody body) }
{
    let name = default_name(alloc)?;
    let source = any(alloc)?;
    setup_from(alloc, source, name)
}

fn check_state(alloc: Global) -> Result<Command, Fail>
    ensures { IfOk result (λ command. IsWellFormed command) }
{
    let name = default_name(alloc)?;
    Ok(Command::Add(RuleDraft {
        number: Some(100),
        set: 0,
        action: Action::CheckState(Some(name)),
        log: None,
        body: None,
    }))
}

fn allow_setup(alloc: Global) -> Result<Command, Fail>
    ensures { IfOk result (λ command. IsWellFormed command) }
{
    let body = setup_body(alloc)?;
    Ok(Command::Add(RuleDraft {
        number: Some(200),
        set: 0,
        action: Action::Allow,
        log: None,
        body: Some(body),
    }))
}

/// 10.0.0.0/8
fn net() -> Result<Key, Fail>
    ensures { IfOk result (λ key. IsKey key) }
{
    match Prefix::new(Addr(0x0a00_0000), 8) {
        Some(prefix) => Ok(Key::Net(prefix)),
        None => Err("a length")?,
    }
}

/// `table nets add 10.0.0.0/8 7`
fn table_entry(alloc: Global) -> Result<Command, Fail>
    ensures { IfOk result (λ command. IsWellFormed command) }
{
    let entry = TableCommand::Add(net()?, 7);
    Ok(Command::Table(Name::new(alloc, b"nets")?, entry))
}

/// `set disable 1 3`
fn disable() -> Command
    ensures { IsWellFormed result }
{
    Command::SetMask {
        disable: 10,
        enable: 0,
    }
}

fn command_of(alloc: Global, change: Change) -> Result<Command, Fail>
    ensures { IfOk result (λ command. IsWellFormed command) }
{
    match change {
        Change::CheckState => check_state(alloc),
        Change::AllowSetup => allow_setup(alloc),
        Change::TableEntry => table_entry(alloc),
        Change::Disable => Ok(disable()),
    }
}

fn changed(
    rt: &impl Abort,
    alloc: Global,
    config: &Config,
    change: Change,
) -> Result<Config, Fail> {
    let command = command_of(alloc, change)?;
    assert!(rt; is_changing(&command));
    Ok(apply(alloc, &config, &command)?)
}

/// The empty configuration after the changes.
fn config_of(rt: &impl Abort, alloc: Global, changes: &[Change]) -> Result<Config, Fail> {
    let mut config = Config::new(alloc)?;
    for change in changes {
        config = changed(rt, alloc, &config, *change)?;
    }
    Ok(config)
}

fn edition_of(
    rt: &impl Abort,
    alloc: Global,
    number: u64,
    changes: &[Change],
) -> Result<Arc<Edition>, Fail> {
    let config = config_of(rt, alloc, changes)?;
    Ok(Edition::build(alloc, number, config)?)
}

/// The editions of these configurations, numbered from 1.
pub(super) fn editions_of(
    rt: &impl Abort,
    alloc: Global,
    configs: &[&[Change]],
) -> Result<Vec<Arc<Edition>>, Fail> {
    let mut editions = Vec::new(alloc);
    for changes in configs {
        let number = editions.len() as u64 + 1;
        editions.push(edition_of(rt, alloc, number, changes)?)?;
    }
    Ok(editions)
}
