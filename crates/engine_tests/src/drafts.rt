ghost use Rattle.std.specs.Prelude.{◌≡◌, ◌≤◌, IfOk, IfSome, IsSomeAnd, [], ◌∷◌};
ghost use Rattle.fw_rule.specs.FlowName.{IsFlowName};
ghost use Rattle.fw_rule.specs.WellFormed.{HasBody, IsAction, IsBody, IsState, IsWellFormed};
ghost use Rattle.fw_rule.specs.declared.addr_item.AddrItem.TheVariants as items;

use fw_base::{Addr6, Name, PortRange, Prefix6};
use fw_rule::{
    Action, AddrItem, AddrSpec, Body, Command, Family, Items, LimitMask, Opt, PortList, RuleDraft,
    StateOpt, Test,
};
use rule_chain::Config;
use rule_edits::{apply_owned, is_changing};
use std::alloc::Global;
use std::test::Fail;

/// What a rule of a test does. A flow's name is `n` and a digit.
#[derive(Clone, Copy, Debug)]
pub enum Deed {
    Allow,
    Count,
    SkipTo(u16),
    Call(u16),
    Return,
    /// `allow` with `keep-state`
    Keep(u8),
    /// `count` with `keep-state`
    CountKeep(u8),
    AllowOf(Parts),
    DenyOf(Parts),
    Check(u8),
    CheckAny,
}

/// The body of a rule.
#[derive(Clone, Copy, Debug)]
pub enum Parts {
    /// `limit src-addr 2`
    Limit(u8),
    /// `tcp from any to any keep-state`, which doesn't hold of UDP
    KeepTcp(u8),
    /// `tcp from any to any setup keep-state`
    KeepSetup(u8),
    /// `ip6 from 2001:db8::/32 to any`
    FromNet6,
    /// `udp from any to any` of this port
    ToPort(u16),
}

pub fn name(alloc: Global, digit: u8) -> Result<Name, Fail>
    ensures { IfOk result (λ name. IsFlowName name) }
{
    Ok(Name::new(alloc, &[b'n', digit])?)
}

fn any(alloc: Global) -> Result<AddrSpec, Fail>
    ensures { IfOk result (λ spec. spec.items ≡ items.Any ∷ []) }
{
    let mut every = Vec::new(alloc);
    every.push(AddrItem::Any)?;
    Ok(AddrSpec {
        negated: false,
        items: Items::from_vec(every),
    })
}

/// From any to any, of this protocol and with this for a state.
pub fn body(alloc: Global, protocol: u8, state: Option<StateOpt>) -> Result<Option<Body>, Fail>
    requires { IfSome state IsState }
    ensures { IfOk result (λ body. IsSomeAnd body IsBody) }
{
    Ok(Some(Body {
        family: Family::AnyIp,
        protocol,
        source: any(alloc)?,
        source_ports: None,
        destination: any(alloc)?,
        destination_ports: None,
        options: Items::from_vec(Vec::new(alloc)),
        state,
        state_at: 0,
    }))
}

/// `tcp from any to any setup keep-state`
fn set_up(alloc: Global, digit: u8) -> Result<Option<Body>, Fail>
    ensures { IfOk result (λ body. IsSomeAnd body IsBody) }
{
    let mut options = Vec::new(alloc);
    options.push(Opt {
        negated: false,
        test: Test::Setup,
    })?;
    Ok(Some(Body {
        family: Family::AnyIp,
        protocol: 6,
        source: any(alloc)?,
        source_ports: None,
        destination: any(alloc)?,
        destination_ports: None,
        options: Items::from_vec(options),
        state: Some(StateOpt::Keep(name(alloc, digit)?)),
        state_at: 1,
    }))
}

/// `ip6 from 2001:db8::/32 to any`
fn from_net6(alloc: Global) -> Result<Option<Body>, Fail>
    ensures { IfOk result (λ body. IsSomeAnd body IsBody) }
{
    let mut from = Vec::new(alloc);
    let Some(prefix) = Prefix6::new(Addr6(0x2001_0db8 << 96), 32) else {
        return Err(Fail::from("no prefix"));
    };
    from.push(AddrItem::Net6(prefix))?;
    Ok(Some(Body {
        family: Family::Six,
        protocol: 0,
        source: AddrSpec {
            negated: false,
            items: Items::from_vec(from),
        },
        source_ports: None,
        destination: any(alloc)?,
        destination_ports: None,
        options: Items::from_vec(Vec::new(alloc)),
        state: None,
        state_at: 0,
    }))
}

/// `udp from any to any` of this port
fn to_port(alloc: Global, port: u16) -> Result<Option<Body>, Fail>
    ensures { IfOk result (λ body. IsSomeAnd body IsBody) }
{
    let mut ranges = Vec::new(alloc);
    let Some(range) = PortRange::new(port, port) else {
        return Err(Fail::from("no range"));
    };
    ranges.push(range)?;
    Ok(Some(Body {
        family: Family::AnyIp,
        protocol: 17,
        source: any(alloc)?,
        source_ports: None,
        destination: any(alloc)?,
        destination_ports: Some(PortList {
            negated: false,
            ranges: Items::from_vec(ranges),
        }),
        options: Items::from_vec(Vec::new(alloc)),
        state: None,
        state_at: 0,
    }))
}

fn kept(alloc: Global, protocol: u8, digit: u8) -> Result<Option<Body>, Fail>
    ensures { IfOk result (λ body. IsSomeAnd body IsBody) }
{
    body(alloc, protocol, Some(StateOpt::Keep(name(alloc, digit)?)))
}

fn limited(alloc: Global, digit: u8) -> Result<Option<Body>, Fail>
    ensures { IfOk result (λ body. IsSomeAnd body IsBody) }
{
    let limit = StateOpt::Limit(LimitMask::SrcAddr, 2, name(alloc, digit)?);
    body(alloc, 0, Some(limit))
}

fn body_of(alloc: Global, parts: Parts) -> Result<Option<Body>, Fail>
    ensures { IfOk result (λ body. IsSomeAnd body IsBody) }
{
    match parts {
        Parts::Limit(digit) => limited(alloc, digit),
        Parts::KeepTcp(digit) => kept(alloc, 6, digit),
        Parts::KeepSetup(digit) => set_up(alloc, digit),
        Parts::FromNet6 => from_net6(alloc),
        Parts::ToPort(port) => to_port(alloc, port),
    }
}

/// Adds a rule of that number, set, body and action.
pub fn rule(number: u16, set: u8, body: Option<Body>, action: Action) -> Command
    requires set { set ≤ 31 }
    requires action { IsAction action }
    requires body { HasBody action body }
    ensures { IsWellFormed result }
{
    Command::Add(RuleDraft {
        number: Some(number),
        set,
        action,
        log: None,
        body,
    })
}

/// Adds a `check-state` of that flow's name.
pub fn checking(alloc: Global, number: u16, set: u8, digit: u8) -> Result<Command, Fail>
    requires { set ≤ 31 }
    ensures { IfOk result (λ command. IsWellFormed command) }
{
    let name = name(alloc, digit)?;
    Ok(rule(number, set, None, Action::CheckState(Some(name))))
}

/// Adds a rule of that number and set which does this. Number 0 stands for none.
fn add(alloc: Global, number: u16, set: u8, deed: Deed) -> Result<Command, Fail>
    requires { set ≤ 31 }
    ensures { IfOk result (λ command. IsWellFormed command) }
{
    match deed {
        Deed::Allow => Ok(rule(number, set, body(alloc, 0, None)?, Action::Allow)),
        Deed::Count => Ok(rule(number, set, body(alloc, 0, None)?, Action::Count)),
        Deed::SkipTo(other) => Ok(rule(
            number,
            set,
            body(alloc, 0, None)?,
            Action::SkipTo(other.max(1)),
        )),
        Deed::Call(other) => Ok(rule(
            number,
            set,
            body(alloc, 0, None)?,
            Action::Call(other.max(1)),
        )),
        Deed::Return => Ok(rule(number, set, body(alloc, 0, None)?, Action::Return)),
        Deed::Keep(digit) => Ok(rule(number, set, kept(alloc, 0, digit)?, Action::Allow)),
        Deed::CountKeep(digit) => Ok(rule(number, set, kept(alloc, 0, digit)?, Action::Count)),
        Deed::AllowOf(parts) => Ok(rule(number, set, body_of(alloc, parts)?, Action::Allow)),
        Deed::DenyOf(parts) => Ok(rule(number, set, body_of(alloc, parts)?, Action::Deny)),
        Deed::Check(digit) => checking(alloc, number, set, digit),
        Deed::CheckAny => Ok(rule(number, set, None, Action::CheckState(None))),
    }
}

/// The configuration after the command.
pub fn applied(alloc: Global, config: Config, command: &Command) -> Result<Config, Fail>
    requires { IsWellFormed command.now }
{
    if is_changing(command) {
        Ok(apply_owned(alloc, config, command)?)
    } else {
        Err("a listing")?
    }
}

/// The configuration with a rule more, of that number and set, which does this.
pub fn added(
    alloc: Global,
    config: Config,
    number: u16,
    set: u8,
    deed: Deed,
) -> Result<Config, Fail>
    requires { set ≤ 31 }
{
    let command = add(alloc, number, set, deed)?;
    applied(alloc, config, &command)
}
