ghost use Rattle.std.specs.Prelude.{◌≡◌, ◌≤◌, length, drop, IfOk};
ghost use Rattle.ipfw_parser.specs.Reading as reading;
ghost use Rattle.ipfw_parser.specs.Reading.{ReadsAs, NeedsNoMemory};
ghost use Rattle.ipfw_parser.specs.Views.{view, list_of};
ghost use Rattle.ipfw_parser.specs.Rules as spec;

use crate::addresses::addr_spec;
use crate::names::{code, is_any_flow, named_flow, starts_with_colon};
use crate::numbers::{number, set_number, starts_with_digit};
use crate::placed::options;
use crate::ports::{destination_ports, source_ports};
use crate::{Kind, ParseFault, Word, Words};
use fw_base::Name;
use fw_rule::{Action, Body, DEFAULT_FLOW, Family, RuleDraft};
use std::alloc::Global;

/// The words behind the next one, which is this word.
#[tactic(auto, unfolding(crate::specs::Reading::words_behind_word))]
pub fn expected<'a>(name: &'a [u8], end: u32, words: Words<'a>) -> Result<Words<'a>, ParseFault>
    ensures value { ReadsAs (λ w. list_of w) result
        (reading.words_behind_word name.entry.now end (list_of words.entry)) }
    ensures memory { NeedsNoMemory result }
{
    let (next, words) = words.first(end)?;
    if next.is(name) {
        Ok(words)
    } else {
        Err(next.fault(Kind::UnknownWord))
    }
}

/// The rule's number, where a word that begins with a digit stands.
#[tactic(auto, unfolding(crate::specs::Rules::rule_number))]
fn rule_number(end: u32, words: Words<'_>) -> Result<(Option<u16>, Words<'_>), ParseFault>
    ensures { ReadsAs (λ r. (r.0, list_of r.1)) result (spec.rule_number end (list_of words.entry)) }
{
    let (next, rest) = words.first(end)?;
    if starts_with_digit(next.text) {
        let number = number(next, 0, 65535)? as u16;
        Ok((Some(number), rest))
    } else {
        Ok((None, words))
    }
}

/// The number of a set, and the words behind it.
#[tactic(auto, unfolding(crate::specs::Rules::set_behind))]
pub fn set_behind(end: u32, words: Words<'_>) -> Result<(u8, Words<'_>), ParseFault>
    ensures value { ReadsAs (λ r. (r.0, list_of r.1)) result
        (spec.set_behind end (list_of words.entry)) }
    ensures memory { NeedsNoMemory result }
{
    let (which, words) = words.first(end)?;
    Ok((set_number(which)?, words))
}

/// The rule's set, 0 where none is named.
#[tactic(auto, unfolding(crate::specs::Rules::rule_set))]
fn rule_set(end: u32, words: Words<'_>) -> Result<(u8, Words<'_>), ParseFault>
    ensures { ReadsAs (λ r. (r.0, list_of r.1)) result (spec.rule_set end (list_of words.entry)) }
{
    let (next, rest) = words.first(end)?;
    if next.is(b"set") {
        set_behind(end, rest)
    } else {
        Ok((0, words))
    }
}

/// The actions that are one word.
#[tactic(auto, unfolding(crate::specs::Rules::plain_action))]
fn plain_action(word: Word<'_>) -> Option<Action>
    ensures { result ≡ spec.plain_action word.entry.text.now }
{
    if word.is(b"allow") || word.is(b"accept") || word.is(b"pass") || word.is(b"permit") {
        Some(Action::Allow)
    } else if word.is(b"deny") || word.is(b"drop") {
        Some(Action::Deny)
    } else if word.is(b"reset") {
        Some(Action::Reset)
    } else if word.is(b"reject") {
        Some(Action::Unreach(1))
    } else if word.is(b"count") {
        Some(Action::Count)
    } else if word.is(b"return") {
        Some(Action::Return)
    } else {
        None
    }
}

/// An action that begins with the word.
#[tactic(auto, unfolding(crate::specs::Rules::action))]
fn action<'a>(end: u32, word: Word<'a>, words: Words<'a>) -> Result<(Action, Words<'a>), ParseFault>
    ensures { ReadsAs (λ r. (r.0, list_of r.1)) result
        (spec.action end (view word.entry) (list_of words.entry)) }
{
    if let Some(action) = plain_action(word) {
        return Ok((action, words));
    }
    if word.is(b"unreach") {
        let (next, words) = words.first(end)?;
        Ok((Action::Unreach(code(next)?), words))
    } else if word.is(b"skipto") {
        let (next, words) = words.first(end)?;
        Ok((Action::SkipTo(number(next, 1, 65535)? as u16), words))
    } else if word.is(b"call") {
        let (next, words) = words.first(end)?;
        Ok((Action::Call(number(next, 1, 65535)? as u16), words))
    } else {
        Err(word.fault(Kind::UnknownWord))
    }
}

#[tactic(auto, unfolding(crate::specs::Rules::amount_behind))]
fn amount_behind(end: u32, words: Words<'_>) -> Result<(u32, Words<'_>), ParseFault>
    ensures { ReadsAs (λ r. (r.0, list_of r.1)) result
        (spec.amount_behind end (list_of words.entry)) }
{
    let (next, words) = words.first(end)?;
    Ok((number(next, 0, 4_294_967_295)? as u32, words))
}

#[tactic(auto, unfolding(crate::specs::Rules::amount))]
fn amount(end: u32, words: Words<'_>) -> Result<(u32, Words<'_>), ParseFault>
    ensures { ReadsAs (λ r. (r.0, list_of r.1)) result (spec.amount end (list_of words.entry)) }
{
    let (next, rest) = words.first(end)?;
    if next.is(b"logamount") {
        amount_behind(end, rest)
    } else {
        Ok((0, words))
    }
}

/// `log` and its amount, 0 where none is given.
#[tactic(auto, unfolding(crate::specs::Rules::log))]
fn log(end: u32, words: Words<'_>) -> Result<(Option<u32>, Words<'_>), ParseFault>
    ensures { ReadsAs (λ r. (r.0, list_of r.1)) result (spec.log end (list_of words.entry)) }
{
    let (next, rest) = words.first(end)?;
    if next.is(b"log") {
        let (amount, words) = amount(end, rest)?;
        Ok((Some(amount), words))
    } else {
        Ok((None, words))
    }
}

/// The version of IP that the protocol's word asks for.
#[tactic(auto, unfolding(crate::specs::Rules::family))]
fn family(word: Word<'_>) -> Family
    ensures { result ≡ spec.family word.entry.text.now }
{
    if word.is(b"ip4") || word.is(b"ipv4") {
        Family::Four
    } else if word.is(b"ip6") || word.is(b"ipv6") {
        Family::Six
    } else {
        Family::AnyIp
    }
}

/// Whether the word names one version of IP.
#[tactic(auto, unfolding(crate::specs::Rules::names_version))]
fn names_version(word: Word<'_>) -> bool
    ensures { result ≡ spec.names_version word.entry.text.now }
{
    match family(word) {
        Family::AnyIp => false,
        Family::Four | Family::Six => true,
    }
}

/// A protocol by name or by number; 0 stands for every protocol.
#[tactic(auto, unfolding(crate::specs::Rules::protocol))]
fn protocol(word: Word<'_>) -> Result<u8, ParseFault>
    ensures { ReadsAs (λ n. n) result (spec.protocol (view word.entry)) }
{
    if names_version(word) {
        Ok(0)
    } else if starts_with_digit(word.text) {
        Ok(number(word, 0, 255)? as u8)
    } else if word.is(b"ip") || word.is(b"all") {
        Ok(0)
    } else if word.is(b"icmp") {
        Ok(1)
    } else if word.is(b"tcp") {
        Ok(6)
    } else if word.is(b"udp") {
        Ok(17)
    } else if word.is(b"ipv6-icmp") {
        Ok(58)
    } else {
        Err(word.fault(Kind::UnknownWord))
    }
}

#[tactic(auto, unfolding(crate::specs::Rules::body))]
fn body(alloc: Global, end: u32, words: Words<'_>) -> Result<Body, ParseFault>
    ensures { ReadsAs (λ b. b) result (spec.body end (list_of words.entry)) }
{
    let (next, words) = words.first(end)?;
    let protocol = protocol(next)?;
    let words = expected(b"from", end, words)?;
    let (source, words) = addr_spec(alloc, end, words)?;
    let (source_ports, words) = source_ports(alloc, end, words)?;
    let words = expected(b"to", end, words)?;
    let (destination, words) = addr_spec(alloc, end, words)?;
    let (destination_ports, words) = destination_ports(alloc, end, words)?;
    let placed = options(alloc, end, words)?;
    Ok(Body {
        family: family(next),
        protocol,
        source,
        source_ports,
        destination,
        destination_ports,
        options: placed.options,
        state: placed.state,
        state_at: placed.state_at,
    })
}

/// The flow that is looked up: `default` where no name follows, and none for `:any`.
#[tactic(auto, unfolding(crate::specs::Rules::looked_up_flow))]
fn looked_up_flow(alloc: Global, words: Words<'_>) -> Result<(Option<Name>, Words<'_>), ParseFault>
    ensures { ReadsAs (λ r. (r.0, list_of r.1)) result (spec.looked_up_flow (list_of words.entry)) }
{
    let Some((word, behind)) = words.next() else {
        return Ok((Some(Name::new(alloc, DEFAULT_FLOW)?), words));
    };
    if !starts_with_colon(word.text) {
        return Ok((Some(Name::new(alloc, DEFAULT_FLOW)?), words));
    }
    if is_any_flow(word) {
        return Ok((None, behind));
    }
    Ok((Some(named_flow(alloc, word)?), behind))
}

/// Nothing stands behind the flow of `check-state`.
#[tactic(auto, unfolding(crate::specs::Rules::check_end))]
fn check_end(
    number: Option<u16>,
    set: u8,
    flow: Option<Name>,
    words: Words<'_>,
) -> Result<RuleDraft, ParseFault>
    ensures { ReadsAs (λ d. d) result (spec.check_end number set flow (list_of words.entry)) }
{
    match words.next() {
        Some((word, _rest)) => Err(word.fault(Kind::ExtraWord)),
        None => Ok(RuleDraft {
            number,
            set,
            action: Action::CheckState(flow),
            log: None,
            body: None,
        }),
    }
}

/// A rule without a body, behind `check-state`.
#[tactic(auto, unfolding(crate::specs::Rules::check_state))]
fn check_state(
    alloc: Global,
    number: Option<u16>,
    set: u8,
    words: Words<'_>,
) -> Result<RuleDraft, ParseFault>
    ensures { ReadsAs (λ d. d) result (spec.check_state number set (list_of words.entry)) }
{
    let (flow, words) = looked_up_flow(alloc, words)?;
    check_end(number, set, flow, words)
}

/// A rule with a body, whose action begins with the word.
#[tactic(auto, unfolding(crate::specs::Rules::matching_rule))]
fn matching_rule<'a>(
    alloc: Global,
    number: Option<u16>,
    set: u8,
    end: u32,
    word: Word<'a>,
    words: Words<'a>,
) -> Result<RuleDraft, ParseFault>
    ensures { ReadsAs (λ d. d) result
        (spec.matching_rule number set end (view word.entry) (list_of words.entry)) }
{
    let (action, words) = action(end, word, words)?;
    let (log, words) = log(end, words)?;
    let body = Some(body(alloc, end, words)?);
    Ok(RuleDraft {
        number,
        set,
        action,
        log,
        body,
    })
}

#[tactic(auto, unfolding(crate::specs::Rules::rule))]
pub(crate) fn rule(alloc: Global, end: u32, words: Words<'_>) -> Result<RuleDraft, ParseFault>
    ensures { ReadsAs (λ d. d) result (spec.rule end (list_of words.entry)) }
{
    let (number, words) = rule_number(end, words)?;
    let (set, words) = rule_set(end, words)?;
    let (next, words) = words.first(end)?;
    if next.is(b"check-state") {
        check_state(alloc, number, set, words)
    } else {
        matching_rule(alloc, number, set, end, next, words)
    }
}
