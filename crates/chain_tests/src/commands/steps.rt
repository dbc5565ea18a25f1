ghost use Rattle.std.specs.Prelude.{◌≡◌, IfOk, IfSome, IsTrue, [], ◌∷◌};
ghost use Rattle.fw_rule.specs.FlowName.{IsFlowName};
ghost use Rattle.fw_rule.specs.WellFormed.{IsBody, IsItem, IsKey, IsNumber, IsState, IsTableCommand, IsTest, IsWellFormed};
ghost use Rattle.rule_edits.specs.Changing.{IsChanging, changes_table};
ghost use Rattle.std.specs.List.{AllByRecursion};

use fw_base::{Addr, Name, OutOfMemory, Prefix};
use fw_rule::{
    Action, AddrItem, AddrSpec, Body, Command, Family, Field, Items, Key, Opt, RuleDraft, Setting,
    StateOpt, TableCommand, TableType, Test,
};
use std::alloc::{AllocError, Global};
use std::test::Fail;

/// A command of a test. A table's name is one letter.
#[derive(Clone, Copy)]
pub enum Step {
    /// `add NUMBER set SET count ip from any to any`
    Add(u16, u8),
    /// `add NUMBER count ip from table(FIRST) to any lookup dst-port SECOND`
    Lookup(u16, u8, u8),
    Delete(u16, u16),
    DeleteSet(u8),
    Flush,
    Zero(u16, u16),
    ZeroAll,
    /// Deletes the rules of the number, which stands there that many times.
    DeleteTimes(u16, u16),
    /// Zeroes the rules of the number, which stands there that many times.
    ZeroTimes(u16, u16),
    Mask(u32, u32),
    MoveSet(u8, u8),
    MoveRule(u16, u8),
    Swap(u8, u8),
    Create(u8, TableType),
    Destroy(u8),
    /// Adds 10.0.0.0 of that length, with the length as its value.
    AddNet(u8, u8),
    AddNumber(u8, u32),
    RemoveNet(u8, u8),
    Clear(u8),
    SwapTables(u8, u8),
    Local(u32, u32),
    /// Adds the addresses 0 to one less than the count, each of them twice.
    LocalTwice(u32),
    Most(u32),
    KeepStates(bool),
    /// `add check-state :nNAME`, the name's second byte being this one
    Check(u8),
    /// `add count ip from any to any keep-state :nNAME`
    Keep(u8),
    /// `add count ip from any to any lookup dst-port TABLE keep-state :nNAME`
    KeepLookup(u8, u8),
}

fn one<T: Drop>(alloc: Global, item: T) -> Result<Items<T>, AllocError>
    ensures { IfOk result (λ items. items ≡ item ∷ []) }
{
    let mut items = Vec::new(alloc);
    items.push(item)?;
    Ok(Items::from_vec(items))
}

pub fn letter(alloc: Global, byte: u8) -> Result<Name, Fail> {
    Ok(Name::new(alloc, &[byte])?)
}

fn spec(alloc: Global, item: AddrItem) -> Result<AddrSpec, Fail>
    ensures { IfOk result (λ spec. spec.items ≡ item ∷ []) }
{
    Ok(AddrSpec {
        negated: false,
        items: one(alloc, item)?,
    })
}

/// `ip from SOURCE to any OPTIONS STATE`
fn body(
    alloc: Global,
    source: AddrItem,
    options: Items<Opt>,
    state: Option<StateOpt>,
) -> Result<Body, Fail>
    requires source { IsItem source }
    requires options { AllByRecursion (λ option. IsTest option.test) options }
    requires state { IfSome state IsState }
    ensures { IfOk result (λ body. IsBody body) }
{
    Ok(Body {
        family: Family::AnyIp,
        protocol: 0,
        source: spec(alloc, source)?,
        source_ports: None,
        destination: spec(alloc, AddrItem::Any)?,
        destination_ports: None,
        options,
        state,
        state_at: 0,
    })
}

fn add(alloc: Global, number: u16, set: u8) -> Result<Command, Fail>
    ensures formed { IfOk result (λ command. IsWellFormed command) }
    ensures changing { IfOk result (λ command. IsChanging command) }
{
    let body = body(alloc, AddrItem::Any, Items::from_vec(Vec::new(alloc)), None)?;
    Ok(Command::Add(RuleDraft {
        number: Some(number),
        set: set.min(31),
        action: Action::Count,
        log: None,
        body: Some(body),
    }))
}

/// `lookup dst-port TABLE`
fn lookup_port(alloc: Global, table: u8) -> Result<Items<Opt>, Fail>
    ensures { IfOk result (λ options. AllByRecursion (λ option. IsTest option.test) options) }
{
    let option = Opt {
        negated: false,
        test: Test::Lookup(Field::DstPort, letter(alloc, table)?),
    };
    Ok(one(alloc, option)?)
}

fn lookup(alloc: Global, number: u16, first: u8, second: u8) -> Result<Command, Fail>
    ensures formed { IfOk result (λ command. IsWellFormed command) }
    ensures changing { IfOk result (λ command. IsChanging command) }
{
    let options = lookup_port(alloc, second)?;
    let body = body(
        alloc,
        AddrItem::InTable(letter(alloc, first)?),
        options,
        None,
    )?;
    Ok(Command::Add(RuleDraft {
        number: Some(number),
        set: 0,
        action: Action::Count,
        log: None,
        body: Some(body),
    }))
}

/// The flow name of `n` and this byte.
fn flow(alloc: Global, byte: u8) -> Result<Name, Fail>
    ensures { IfOk result (λ name. IsFlowName name) }
{
    Ok(Name::new(alloc, &[b'n', byte])?)
}

fn check_state(alloc: Global, name: u8) -> Result<Command, Fail>
    ensures formed { IfOk result (λ command. IsWellFormed command) }
    ensures changing { IfOk result (λ command. IsChanging command) }
{
    Ok(Command::Add(RuleDraft {
        number: None,
        set: 0,
        action: Action::CheckState(Some(flow(alloc, name)?)),
        log: None,
        body: None,
    }))
}

/// `add count ip from any to any OPTIONS keep-state :nNAME`
fn keep_state(alloc: Global, name: u8, options: Items<Opt>) -> Result<Command, Fail>
    requires { AllByRecursion (λ option. IsTest option.test) options }
    ensures formed { IfOk result (λ command. IsWellFormed command) }
    ensures changing { IfOk result (λ command. IsChanging command) }
{
    let state = StateOpt::Keep(flow(alloc, name)?);
    let kept = body(alloc, AddrItem::Any, options, Some(state))?;
    Ok(Command::Add(RuleDraft {
        number: None,
        set: 0,
        action: Action::Count,
        log: None,
        body: Some(kept),
    }))
}

fn two(alloc: Global, first: u16, second: u16) -> Result<Items<u16>, AllocError>
    ensures { IfOk result (λ numbers. AllByRecursion IsNumber numbers) }
{
    let numbers = [first.max(1), second.max(1)];
    Ok(Items::from_vec(Vec::from_slice(alloc, numbers.as_slice())?))
}

/// The number, that many times.
#[tactic(auto, using(fw_base::proofs::Lists::all_push))]
fn repeated(alloc: Global, number: u16, count: u16) -> Result<Items<u16>, AllocError>
    ensures { IfOk result (λ numbers. AllByRecursion IsNumber numbers) }
{
    let mut numbers = Vec::new(alloc);
    for _ in 0..count {
        numbers.push(number.max(1))?;
    }
    Ok(Items::from_vec(numbers))
}

/// The addresses 0 to one less than the count, each of them twice.
fn pairs(alloc: Global, count: u32) -> Result<Items<Addr>, OutOfMemory> {
    let mut addresses = Vec::new(alloc);
    for address in 0..count {
        addresses.push(Addr(address))?;
        addresses.push(Addr(address))?;
    }
    Ok(Items::from_vec(addresses))
}

fn on_table(alloc: Global, name: u8, command: TableCommand) -> Result<Command, Fail>
    requires formed { IsTableCommand command }
    requires changing { IsTrue (changes_table command) }
    ensures formed { IfOk result (λ made. IsWellFormed made) }
    ensures changing { IfOk result (λ made. IsChanging made) }
{
    Ok(Command::Table(letter(alloc, name)?, command))
}

/// 10.0.0.0 of that length.
fn net(length: u8) -> Result<Key, Fail>
    ensures { IfOk result (λ key. IsKey key) }
{
    match Prefix::new(Addr(0x0a00_0000), length) {
        Some(prefix) => Ok(Key::Net(prefix)),
        None => Err("a length")?,
    }
}

fn move_set(from: u8, to: u8) -> Command
    ensures formed { IsWellFormed result }
    ensures changing { IsChanging result }
{
    Command::MoveSet {
        from: from.min(31),
        to: to.min(31),
    }
}

fn move_rule(number: u16, to: u8) -> Command
    ensures formed { IsWellFormed result }
    ensures changing { IsChanging result }
{
    Command::MoveRule {
        number: number.max(1),
        to: to.min(31),
    }
}

fn swap_sets(first: u8, second: u8) -> Command
    ensures formed { IsWellFormed result }
    ensures changing { IsChanging result }
{
    Command::SwapSets {
        first: first.min(31),
        second: second.min(31),
    }
}

fn set_most(value: u32) -> Command
    ensures formed { IsWellFormed result }
    ensures changing { IsChanging result }
{
    Command::Sysctl {
        setting: Setting::Max,
        value: value.max(1).min(16384),
    }
}

fn set_keep(keep: bool) -> Command
    ensures formed { IsWellFormed result }
    ensures changing { IsChanging result }
{
    Command::Sysctl {
        setting: Setting::Keep,
        value: u32::from(keep),
    }
}

fn local(alloc: Global, first: u32, second: u32) -> Result<Command, Fail>
    ensures formed { IfOk result (λ command. IsWellFormed command) }
    ensures changing { IfOk result (λ command. IsChanging command) }
{
    let addresses = [Addr(first), Addr(second)];
    let addresses = Vec::from_slice(alloc, addresses.as_slice())?;
    Ok(Command::Local(Items::from_vec(addresses)))
}

fn add_net(length: u8) -> Result<TableCommand, Fail>
    ensures formed { IfOk result (λ command. IsTableCommand command) }
    ensures changing { IfOk result (λ command. IsTrue (changes_table command)) }
{
    Ok(TableCommand::Add(net(length)?, u32::from(length)))
}

/// The command of the step.
pub fn command_of(alloc: Global, step: Step) -> Result<Command, Fail>
    ensures formed { IfOk result (λ command. IsWellFormed command) }
    ensures changing { IfOk result (λ command. IsChanging command) }
{
    match step {
        Step::Add(number, set) => add(alloc, number, set),
        Step::Lookup(number, first, second) => lookup(alloc, number, first, second),
        Step::Check(name) => check_state(alloc, name),
        Step::Keep(name) => keep_state(alloc, name, Items::from_vec(Vec::new(alloc))),
        Step::KeepLookup(name, table) => keep_state(alloc, name, lookup_port(alloc, table)?),
        Step::Delete(first, second) => Ok(Command::Delete(two(alloc, first, second)?)),
        Step::DeleteTimes(number, count) => Ok(Command::Delete(repeated(alloc, number, count)?)),
        Step::DeleteSet(set) => Ok(Command::DeleteSet(set.min(31))),
        Step::Flush => Ok(Command::Flush),
        Step::Zero(first, second) => Ok(Command::Zero(two(alloc, first, second)?)),
        Step::ZeroTimes(number, count) => Ok(Command::Zero(repeated(alloc, number, count)?)),
        Step::ZeroAll => Ok(Command::Zero(Items::from_vec(Vec::new(alloc)))),
        Step::Mask(disable, enable) => Ok(Command::SetMask { disable, enable }),
        Step::MoveSet(from, to) => Ok(move_set(from, to)),
        Step::MoveRule(number, to) => Ok(move_rule(number, to)),
        Step::Swap(first, second) => Ok(swap_sets(first, second)),
        Step::Create(name, kind) => on_table(alloc, name, TableCommand::Create(kind)),
        Step::Destroy(name) => on_table(alloc, name, TableCommand::Destroy),
        Step::AddNet(name, length) => on_table(alloc, name, add_net(length)?),
        Step::AddNumber(name, number) => {
            on_table(alloc, name, TableCommand::Add(Key::Number(number), 7))
        }
        Step::RemoveNet(name, length) => on_table(alloc, name, TableCommand::Remove(net(length)?)),
        Step::Clear(name) => on_table(alloc, name, TableCommand::Clear),
        Step::SwapTables(name, other) => {
            on_table(alloc, name, TableCommand::SwapWith(letter(alloc, other)?))
        }
        Step::Local(first, second) => local(alloc, first, second),
        Step::LocalTwice(count) => Ok(Command::Local(pairs(alloc, count)?)),
        Step::Most(value) => Ok(set_most(value)),
        Step::KeepStates(keep) => Ok(set_keep(keep)),
    }
}
