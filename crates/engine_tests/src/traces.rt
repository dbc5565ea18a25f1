ghost use Rattle.std.specs.Prelude.{◌≤◌, ◌<◌, length, IfOk, IfSome, IsSomeAnd};
ghost use Rattle.fw_rule.specs.WellFormed.{IsBody, IsState, IsWellFormed};

mod numbers;

use crate::drafts::{applied, body, checking, name, rule};
use crate::frames::{incoming, packet_of};
use counter_book::Tally;
use eval_engine::{Judgement, Paused, Question, begin, is_reply_to, resume};
use evaluation_laws::{Evaluation, Outcome, evaluate};
use fw_base::Port;
use fw_rule::{Action, Body, Command, LimitMask, StateOpt};
use generation_store::Edition;
use ip6_headers::AnyIp;
use numbers::Numbers;
use rule_chain::Config;
use state_asks::{Op, Reply, RuleRef, Way};
use std::alloc::Global;
use std::collections::LinkedList;
use std::process::Abort;
use std::sync::Arc;
use std::test::Fail;
use test_frames::SYN;

/// How many lists of rules are tried.
const LISTS: u32 = 3_000;

/// The numbers that a rule is made of: its own number and another one, its set, one for the state and the digit of
/// its name, the digit of the name that `check-state` has, one for the protocol and one for what the rule does.
#[derive(Clone, Copy)]
struct Drawn {
    number: u16,
    other: u16,
    set: u8,
    state: u32,
    state_name: u8,
    checked_name: u8,
    protocol: u32,
    deed: u32,
}

/// The digit of one of three flow names.
fn digit(numbers: &mut Numbers) -> u8 {
    b'0' + numbers.below(3) as u8
}

/// The next rule: of a small number, of a set below 3.
fn draw(numbers: &mut Numbers) -> Drawn
    ensures other { 1 ≤ result.other }
    ensures set { result.set ≤ 31 }
{
    Drawn {
        number: 1 + numbers.below(9) as u16,
        other: 1 + numbers.below(9) as u16,
        set: numbers.below(3) as u8,
        state: numbers.below(8),
        state_name: digit(numbers),
        checked_name: digit(numbers),
        protocol: numbers.below(4),
        deed: numbers.below(14),
    }
}

/// A list with many calls would take long, so not each rule may be one.
fn is_call(drawn: &Drawn) -> bool {
    matches!(drawn.deed, 8 | 9)
}

/// Every fourth rule has `keep-state`, and every eighth `limit`.
fn state(alloc: Global, drawn: &Drawn) -> Result<Option<StateOpt>, Fail>
    ensures { IfOk result (λ state. IfSome state IsState) }
{
    let name = name(alloc, drawn.state_name)?;
    Ok(match drawn.state {
        0 | 1 => Some(StateOpt::Keep(name)),
        2 => Some(StateOpt::Limit(LimitMask::SrcAddr, 2, name)),
        _ => None,
    })
}

/// From any to any; of every fourth UDP, which doesn't hold of the packet.
fn body_of(alloc: Global, drawn: &Drawn) -> Result<Option<Body>, Fail>
    ensures { IfOk result (λ body. IsSomeAnd body IsBody) }
{
    let protocol = if drawn.protocol == 0 { 17 } else { 0 };
    body(alloc, protocol, state(alloc, drawn)?)
}

/// The rule of these numbers.
fn rule_of(alloc: Global, drawn: &Drawn, may_call: bool) -> Result<Command, Fail>
    requires other { 1 ≤ drawn.now.other }
    requires set { drawn.now.set ≤ 31 }
    ensures { IfOk result (λ command. IsWellFormed command) }
{
    let Drawn {
        number,
        other,
        set,
        ..
    } = *drawn;
    match drawn.deed {
        0 => Ok(rule(number, set, None, Action::CheckState(None))),
        1 | 2 => checking(alloc, number, set, drawn.checked_name),
        3 => Ok(rule(number, set, body_of(alloc, drawn)?, Action::Allow)),
        4 => Ok(rule(number, set, body_of(alloc, drawn)?, Action::Deny)),
        5 => Ok(rule(number, set, body_of(alloc, drawn)?, Action::Unreach(3))),
        6 | 7 => Ok(rule(number, set, body_of(alloc, drawn)?, Action::SkipTo(other))),
        8 | 9 if may_call => Ok(rule(number, set, body_of(alloc, drawn)?, Action::Call(other))),
        10 | 11 => Ok(rule(number, set, body_of(alloc, drawn)?, Action::Return)),
        _ => Ok(rule(number, set, body_of(alloc, drawn)?, Action::Count)),
    }
}

/// The configuration with that rule more.
fn with_rule(alloc: Global, config: Config, drawn: &Drawn, may_call: bool) -> Result<Config, Fail>
    requires other { 1 ≤ drawn.now.other }
    requires set { drawn.now.set ≤ 31 }
{
    let command = rule_of(alloc, drawn, may_call)?;
    applied(alloc, config, &command)
}

/// A configuration of up to twelve such rules.
fn configured(alloc: Global, numbers: &mut Numbers) -> Result<Config, Fail> {
    let mut config = Config::new(alloc)?;
    let mut calls = 1 + numbers.below(64) / 63;
    for _ in 0..numbers.below(13) {
        let drawn = draw(numbers);
        config = with_rule(alloc, config, &drawn, calls > 0)?;
        if is_call(&drawn) && calls > 0 {
            calls -= 1;
        }
    }
    Ok(config)
}

/// An edition of such rules; of sets 0 to 2 some are disabled.
fn edition(alloc: Global, numbers: &mut Numbers) -> Result<Arc<Edition>, Fail> {
    let config = configured(alloc, numbers)?;
    let disabled = Command::SetMask {
        disable: numbers.below(8),
        enable: 0,
    };
    let config = applied(alloc, config, &disabled)?;
    Ok(Edition::build(alloc, 7, config)?)
}

/// A reply to a lookup, of a rule of the edition where one is found, or to an install.
fn reply(edition: &Edition, numbers: &mut Numbers, op: &Op) -> Reply {
    let rules = edition.config().rules();
    let place = numbers.below(13) as usize;
    let count = numbers.below(5);
    match op {
        Op::Lookup { .. } => match rules.get(place) {
            Some(rule) => {
                let maker = RuleRef {
                    id: rule.id,
                    number: rule.number,
                };
                Reply::Found(Way::Forward, maker)
            }
            None => Reply::NotFound,
        },
        Op::Install { .. } => match numbers.below(8) {
            0 => Reply::LimitReached(count),
            1 => Reply::TableFull(count),
            2 => Reply::Exists,
            _ => Reply::Created,
        },
    }
}

/// The asks, the replies and the end of an evaluation by `begin` and `resume`.
#[derive(Drop)]
struct Shipped {
    asks: Vec<Op>,
    replies: Vec<Reply>,
    outcome: Outcome,
}

/// Adds an ask and its reply.
fn note(asks: &mut Vec<Op>, replies: &mut Vec<Reply>, op: Op, reply: Reply) -> Result<(), Fail> {
    asks.push(op)?;
    replies.push(reply)?;
    Ok(())
}

/// What was asked and replied, and the end: the judgement, or else an ask more.
fn ended(
    mut asks: Vec<Op>,
    replies: Vec<Reply>,
    judgement: Option<Judgement>,
    ask: Op,
) -> Result<Shipped, Fail> {
    let outcome = match judgement {
        Some(judgement) => Outcome::Whole(judgement),
        None => {
            asks.push(ask)?;
            Outcome::OpenAt(ask)
        }
    };
    Ok(Shipped {
        asks,
        replies,
        outcome,
    })
}

/// With such replies, up to so many of them.
fn in_steps(
    alloc: Global,
    numbers: &mut Numbers,
    edition: &Edition,
    packet: &AnyIp<'_>,
    port: &Port,
    tally: &mut Tally,
) -> Result<Shipped, Fail>
    requires { edition.now.config.greatest_counter < length tally.old }
{
    let mut asks = Vec::new(alloc);
    let mut replies = Vec::new(alloc);
    let question = Question::new(edition, packet, port, 9);
    let mut paused = Paused::new();
    let mut judgement = begin(&question, &mut paused, tally);
    for _turn in 0..numbers.below(40) {
        if judgement.is_some() {
            break;
        }
        let answer = reply(edition, numbers, paused.ask());
        if !is_reply_to(edition, paused.ask(), &answer) {
            break;
        }
        note(&mut asks, &mut replies, *paused.ask(), answer)?;
        judgement = resume(&question, &mut paused, answer, tally);
    }
    ended(asks, replies, judgement, *paused.ask())
}

/// How often the list has this number.
fn count_of(hits: &LinkedList<u32>, counter: u32) -> u64 {
    hits.iter().filter(|hit| **hit == counter).count() as u64
}

/// The plain evaluation of the same replies has the same asks, hits and end.
fn compare(
    rt: &impl Abort,
    edition: &Edition,
    tally: &Tally,
    shipped: &Shipped,
    plain: &Evaluation,
) {
    assert_eq!(rt; plain.outcome, shipped.outcome);
    assert_eq!(rt; plain.asks.len(), shipped.asks.len());
    for (one, other) in plain.asks.iter().zip(&shipped.asks) {
        assert_eq!(rt; one, other);
    }
    for rule in edition.config().rules() {
        assert_eq!(rt;
            tally.count(rule.counter).packets,
            count_of(&plain.hits, rule.counter)
        );
    }
}

/// One reply more leaves it neither whole nor open, where it was whole.
fn compare_with_more(
    rt: &impl Abort,
    alloc: Global,
    edition: &Edition,
    packet: &AnyIp<'_>,
    port: &Port,
    run: Shipped,
) -> Result<(), Fail> {
    if let Outcome::Whole(_) = run.outcome {
        let mut replies = run.replies;
        replies.push(Reply::NotFound)?;
        let more = evaluate(alloc, edition, packet, port, 9, &replies)?;
        assert_eq!(rt; more.outcome, Outcome::Neither);
    }
    Ok(())
}

/// Both evaluations of a packet by the next edition.
fn check_next(
    rt: &impl Abort,
    alloc: Global,
    numbers: &mut Numbers,
    packet: &AnyIp<'_>,
    port: &Port,
) -> Result<(), Fail> {
    let edition = edition(alloc, numbers)?;
    let mut tally = Tally::new(alloc);
    tally.fit(edition.config().counters())?;
    let run = in_steps(alloc, numbers, &edition, packet, port, &mut tally)?;
    let plain = evaluate(alloc, &edition, packet, port, 9, &run.replies)?;
    compare(rt, &edition, &tally, &run, &plain);
    compare_with_more(rt, alloc, &edition, packet, port, run)
}

#[test]
fn plain_and_shipped_agree(rt: HostRuntime) -> Result<(), Fail> {
    let packet = packet_of(&rt, SYN)?;
    let port = incoming(rt.alloc())?;
    let mut numbers = Numbers::new(1);
    for _list in 0..LISTS {
        check_next(&rt, rt.alloc(), &mut numbers, &packet, &port)?;
    }
    Ok(())
}
