ghost use Rattle.std.specs.Prelude.{◌≤◌, ◌<◌, length};

mod rows;
mod worked;

use crate::drafts::{Deed, added, applied};
use crate::frames::{incoming, packet_of};
use counter_book::Tally;
use eval_engine::{DocketEntry, Judgement, Paused, Question, begin, is_reply_to, resume};
use fw_base::Port;
use fw_rule::Command;
use generation_store::Edition;
use ip6_headers::AnyIp;
use rows::{COUNTED, Row, STATEFUL};
use rule_chain::Config;
use state_asks::{Op, Reply};
use std::alloc::Global;
use std::mem::size_of;
use std::process::Abort;
use std::sync::Arc;
use std::test::Fail;
use worked::{WORKED, check_worked};

/// An ask that is wanted, and the reply that is given.
#[derive(Clone, Copy, Debug)]
pub struct Turn {
    pub op: Op,
    pub reply: Reply,
}

/// A configuration with these rules added in this order; number 0 stands for none.
fn configured(alloc: Global, rules: &[(u16, u8, Deed)]) -> Result<Config, Fail> {
    let mut config = Config::new(alloc)?;
    for (number, set, deed) in rules {
        config = added(alloc, config, *number, (*set).min(31), *deed)?;
    }
    Ok(config)
}

/// The seventh edition, of that configuration, of which set 5 is disabled.
fn edition(alloc: Global, rules: &[(u16, u8, Deed)]) -> Result<Arc<Edition>, Fail> {
    let config = configured(alloc, rules)?;
    let disabled = Command::SetMask {
        disable: 32,
        enable: 0,
    };
    let config = applied(alloc, config, &disabled)?;
    Ok(Edition::build(alloc, 7, config)?)
}

/// The judgement, where each ask is the wanted one and no turn is left over.
fn judged(
    edition: &Edition,
    packet: &AnyIp<'_>,
    port: &Port,
    turns: &[Turn],
    tally: &mut Tally,
) -> Option<Judgement>
    requires { edition.now.config.greatest_counter < length tally.old }
{
    let question = Question::new(edition, packet, port, 9);
    let mut paused = Paused::new();
    let mut judgement = begin(&question, &mut paused, tally);
    for turn in turns {
        if judgement.is_some() {
            return None;
        }
        if *paused.ask() != turn.op || !is_reply_to(edition, paused.ask(), &turn.reply) {
            return None;
        }
        judgement = resume(&question, &mut paused, turn.reply, tally);
    }
    judgement
}

/// Each rule counted as many packets as the row says, of the packet's bytes.
fn check_counts(rt: &impl Abort, row: &Row, edition: &Edition, tally: &Tally, bytes: u32) {
    for (place, rule) in edition.config().rules().iter().enumerate() {
        let count = tally.count(rule.counter);
        let wanted = row.packets.get(place).copied();
        assert_eq!(rt; Some(count.packets), wanted, "{}", row.name);
        assert_eq!(rt; count.bytes, count.packets.wrapping_mul(u64::from(bytes)));
    }
}

fn check_judgement(rt: &impl Abort, row: &Row, judgement: Option<Judgement>) {
    let wanted = Judgement {
        edition: 7,
        verdict: row.verdict,
        rule: row.rule,
        cause: row.cause,
    };
    assert_eq!(rt; judgement, Some(wanted), "{}", row.name);
    assert_eq!(rt; DocketEntry::judged(wanted).judgement(), judgement);
}

/// A row of a table: its rules, its packet, the asks with their replies, and what comes of it.
fn check(rt: &impl Abort, alloc: Global, row: &Row) -> Result<(), Fail> {
    let edition = edition(alloc, row.rules)?;
    let packet = packet_of(rt, row.packet)?;
    let port = incoming(alloc)?;
    let mut tally = Tally::new(alloc);
    tally.fit(edition.config().counters())?;
    let judgement = judged(&edition, &packet, &port, row.turns, &mut tally);
    check_judgement(rt, row, judgement);
    check_counts(rt, row, &edition, &tally, packet.total());
    Ok(())
}

#[test]
fn rows_without_states(rt: HostRuntime) -> Result<(), Fail> {
    assert_eq!(rt; size_of::<DocketEntry>(), 24);
    assert_eq!(rt; DocketEntry::Other.judgement(), None);
    for row in COUNTED {
        check(&rt, rt.alloc(), row)?;
    }
    Ok(())
}

#[test]
fn rows_with_states(rt: HostRuntime) -> Result<(), Fail> {
    for row in STATEFUL {
        check(&rt, rt.alloc(), row)?;
    }
    Ok(())
}

#[test]
fn worked_rows(rt: HostRuntime) -> Result<(), Fail> {
    for row in WORKED {
        check_worked(&rt, rt.alloc(), row)?;
    }
    Ok(())
}
