ghost use Rattle.std.specs.Prelude.{◌≡◌, Some, None, false, is_some};
ghost use Rattle.ipfw_parser.specs.Reading.{ReadsAs};
ghost use Rattle.ipfw_parser.specs.Views.{view, list_of};
ghost use Rattle.ipfw_parser.specs.Options as spec;

use crate::masks::{signed_names, types, types6};
use crate::names::{iface, is_any_flow, named_flow, starts_with_colon};
use crate::numbers::number;
use crate::{Kind, ParseFault, Word, Words, table_name};
use fw_base::Name;
use fw_rule::{
    DEFAULT_FLOW, FLAG_NAMES, Field, Items, LimitMask, OPTION_NAMES, Opt, StateOpt, Test,
};
use std::alloc::Global;

#[tactic(auto, unfolding(crate::specs::Options::field))]
fn field(word: Word<'_>) -> Result<Field, ParseFault>
    ensures { ReadsAs (λ f. f) result (spec.field (view word.entry)) }
{
    if word.is(b"src-ip") {
        Ok(Field::SrcIp)
    } else if word.is(b"dst-ip") {
        Ok(Field::DstIp)
    } else if word.is(b"src-port") {
        Ok(Field::SrcPort)
    } else if word.is(b"dst-port") {
        Ok(Field::DstPort)
    } else {
        Err(word.fault(Kind::UnknownWord))
    }
}

#[tactic(auto, unfolding(crate::specs::Options::limit_mask))]
fn limit_mask(word: Word<'_>) -> Result<LimitMask, ParseFault>
    ensures { ReadsAs (λ m. m) result (spec.limit_mask (view word.entry)) }
{
    if word.is(b"src-addr") {
        Ok(LimitMask::SrcAddr)
    } else if word.is(b"src-port") {
        Ok(LimitMask::SrcPort)
    } else if word.is(b"dst-addr") {
        Ok(LimitMask::DstAddr)
    } else if word.is(b"dst-port") {
        Ok(LimitMask::DstPort)
    } else {
        Err(word.fault(Kind::UnknownWord))
    }
}

/// The tests that are one word.
#[tactic(auto, unfolding(crate::specs::Options::plain_test))]
fn plain_test(word: Word<'_>) -> Option<Test>
    ensures { result ≡ spec.plain_test word.entry.text.now }
{
    if word.is(b"in") {
        Some(Test::Inward)
    } else if word.is(b"out") {
        Some(Test::Outward)
    } else if word.is(b"established") {
        Some(Test::Established)
    } else if word.is(b"setup") {
        Some(Test::Setup)
    } else if word.is(b"frag") {
        Some(Test::Frag)
    } else {
        None
    }
}

#[tactic(auto, unfolding(crate::specs::Options::lookup))]
fn lookup(alloc: Global, end: u32, words: Words<'_>) -> Result<(Test, Words<'_>), ParseFault>
    ensures { ReadsAs (λ r. (r.0, list_of r.1)) result (spec.lookup end (list_of words.entry)) }
{
    let (which, words) = words.first(end)?;
    let field = field(which)?;
    let (table, words) = words.first(end)?;
    let table = table_name(alloc, table)?;
    Ok((Test::Lookup(field, table), words))
}

#[tactic(auto, unfolding(crate::specs::Options::test_of))]
fn test_of<'a>(alloc: Global, name: Word<'a>, word: Word<'a>) -> Result<Test, ParseFault>
    ensures { ReadsAs (λ t. t) result (spec.test_of (view name.entry) (view word.entry)) }
{
    if name.is(b"recv") {
        Ok(Test::Recv(iface(alloc, word)?))
    } else if name.is(b"xmit") {
        Ok(Test::Xmit(iface(alloc, word)?))
    } else if name.is(b"via") {
        Ok(Test::Via(iface(alloc, word)?))
    } else if name.is(b"tcpflags") {
        tcp_flags(word)
    } else if name.is(b"icmptypes") {
        Ok(Test::IcmpTypes(types(word)?))
    } else if name.is(b"icmp6types") {
        Ok(Test::Icmp6Types(types6(word)?))
    } else if name.is(b"ipoptions") {
        ip_options(word)
    } else {
        Err(name.fault(Kind::UnknownWord))
    }
}

#[tactic(auto, unfolding(fw_rule::specs::Names::flag_names))]
fn tcp_flags(word: Word<'_>) -> Result<Test, ParseFault>
    ensures { ReadsAs (λ t. t) result (spec.tcp_flags (view word.entry)) }
{
    let signs = signed_names(&FLAG_NAMES, word)?;
    Ok(Test::TcpFlags {
        set: signs.set,
        clear: signs.clear,
    })
}

#[tactic(auto, unfolding(fw_rule::specs::Names::option_names))]
fn ip_options(word: Word<'_>) -> Result<Test, ParseFault>
    ensures { ReadsAs (λ t. t) result (spec.ip_options (view word.entry)) }
{
    let signs = signed_names(&OPTION_NAMES, word)?;
    Ok(Test::IpOptions {
        present: signs.set,
        absent: signs.clear,
    })
}

#[tactic(auto, unfolding(crate::specs::Options::has_argument))]
fn has_argument(word: Word<'_>) -> bool
    ensures { result ≡ spec.has_argument word.entry.text.now }
{
    word.is(b"recv")
        || word.is(b"xmit")
        || word.is(b"via")
        || word.is(b"tcpflags")
        || word.is(b"icmptypes")
        || word.is(b"icmp6types")
        || word.is(b"ipoptions")
}

/// A test that begins with the word.
#[tactic(auto, unfolding(crate::specs::Options::test_from))]
fn test_from<'a>(
    alloc: Global,
    end: u32,
    word: Word<'a>,
    words: Words<'a>,
) -> Result<(Test, Words<'a>), ParseFault>
    ensures { ReadsAs (λ r. (r.0, list_of r.1)) result
        (spec.test_from end (view word.entry) (list_of words.entry)) }
{
    if let Some(test) = plain_test(word) {
        return Ok((test, words));
    }
    if word.is(b"lookup") {
        return lookup(alloc, end, words);
    }
    if !has_argument(word) {
        return Err(word.fault(Kind::UnknownWord));
    }
    let (argument, words) = words.first(end)?;
    Ok((test_of(alloc, word, argument)?, words))
}

#[tactic(auto, unfolding(crate::specs::Options::is_state))]
pub(crate) fn is_state(word: Word<'_>) -> bool
    ensures { result ≡ spec.is_state word.entry.text.now }
{
    word.is(b"keep-state") || word.is(b"limit")
}

/// An option that begins with the word: a test, or `not` and a test.
#[tactic(auto, unfolding(crate::specs::Options::option))]
pub(crate) fn option<'a>(
    alloc: Global,
    end: u32,
    word: Word<'a>,
    words: Words<'a>,
) -> Result<(Opt, Words<'a>), ParseFault>
    ensures { ReadsAs (λ r. (r.0, list_of r.1)) result
        (spec.option end (view word.entry) (list_of words.entry)) }
{
    if word.is(b"not") {
        let (next, words) = words.first(end)?;
        if is_state(next) {
            return Err(word.fault(Kind::Misplaced));
        }
        let (test, words) = test_from(alloc, end, next, words)?;
        let negated = true;
        return Ok((Opt { negated, test }, words));
    }
    let (test, words) = test_from(alloc, end, word, words)?;
    let negated = false;
    Ok((Opt { negated, test }, words))
}

/// The flow that states are of: `default` where no name follows, and one flow alone.
#[tactic(auto, unfolding(crate::specs::Options::made_flow))]
fn made_flow(alloc: Global, words: Words<'_>) -> Result<(Name, Words<'_>), ParseFault>
    ensures { ReadsAs (λ r. (r.0, list_of r.1)) result (spec.made_flow (list_of words.entry)) }
{
    let Some((word, behind)) = words.next() else {
        return Ok((Name::new(alloc, DEFAULT_FLOW)?, words));
    };
    if !starts_with_colon(word.text) {
        return Ok((Name::new(alloc, DEFAULT_FLOW)?, words));
    }
    if is_any_flow(word) {
        Err(word.fault(Kind::Misplaced))
    } else {
        Ok((named_flow(alloc, word)?, behind))
    }
}

/// The words behind `limit`: what is counted by, how many states there may be, and their flow.
#[tactic(auto, unfolding(crate::specs::Options::limit_behind))]
fn limit_behind(
    alloc: Global,
    end: u32,
    words: Words<'_>,
) -> Result<(StateOpt, Words<'_>), ParseFault>
    ensures { ReadsAs (λ r. (r.0, list_of r.1)) result (spec.limit_behind end (list_of words.entry)) }
{
    let (mask, words) = words.first(end)?;
    let mask = limit_mask(mask)?;
    let (most, words) = words.first(end)?;
    let most = number(most, 1, 65535)? as u16;
    let (flow, words) = made_flow(alloc, words)?;
    Ok((StateOpt::Limit(mask, most, flow), words))
}

/// How states are made, beginning with the word.
#[tactic(auto, unfolding(crate::specs::Options::state))]
pub(crate) fn state<'a>(
    alloc: Global,
    end: u32,
    word: Word<'a>,
    words: Words<'a>,
) -> Result<(StateOpt, Words<'a>), ParseFault>
    ensures { ReadsAs (λ r. (r.0, list_of r.1)) result
        (spec.state end (view word.entry) (list_of words.entry)) }
{
    if word.is(b"keep-state") {
        let (flow, words) = made_flow(alloc, words)?;
        Ok((StateOpt::Keep(flow), words))
    } else if word.is(b"limit") {
        limit_behind(alloc, end, words)
    } else {
        Err(word.fault(Kind::UnknownWord))
    }
}
