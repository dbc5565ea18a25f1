ghost use Rattle.std.specs.Prelude.{◌<◌, length};

use super::edition;
use crate::drafts::{Deed, Parts};
use crate::frames::{incoming, packet_of};
use counter_book::Tally;
use dyn_states::States;
use eval_engine::{Cause, Judgement, Paused, Question, Verdict, begin, is_reply_to, resume};
use fw_base::Port;
use generation_store::Edition;
use ip6_headers::AnyIp;
use state_asks::RuleRef;
use std::alloc::Global;
use std::process::Abort;
use std::test::Fail;
use test_frames::{ACK, DATAGRAM6, FIN_ACK, FIN_ACK_BACK, FIRST_FRAGMENT6, OPTIONS6, SYN, SYN_ACK};

/// A packet by its second, with its verdict.
type Timed = (u32, &'static [u8], Verdict, RuleRef);

/// A row: the rules by number, set and deed; the packets by their seconds, each with its verdict; then number,
/// packets and bytes of each rule in list order, and the clock of the states, of which none is left.
pub struct Worked {
    name: &'static str,
    rules: &'static [(u16, u8, Deed)],
    packets: &'static [Timed],
    counts: &'static [(u16, u64, u64)],
    clock: u32,
}

const FIRST: RuleRef = RuleRef { id: 1, number: 100 };

const SECOND: RuleRef = RuleRef { id: 2, number: 200 };

const LAST: RuleRef = RuleRef {
    id: 0,
    number: 65535,
};

/// Worked rows by their names.
pub const WORKED: &[Worked] = &[
    Worked {
        name: "tcp_state_lives_and_dies",
        rules: &[
            (100, 0, Deed::Check(b'1')),
            (200, 0, Deed::AllowOf(Parts::KeepSetup(b'1'))),
        ],
        packets: &[
            (100, SYN, Verdict::Allow, SECOND),
            (101, SYN_ACK, Verdict::Allow, SECOND),
            (102, FIN_ACK, Verdict::Allow, SECOND),
            (103, FIN_ACK_BACK, Verdict::Allow, SECOND),
            (104, ACK, Verdict::Deny, LAST),
        ],
        counts: &[(100, 0, 0), (200, 4, 160), (65535, 1, 40)],
        clock: 104,
    },
    Worked {
        name: "ipv6_prefix",
        rules: &[(100, 0, Deed::AllowOf(Parts::FromNet6))],
        packets: &[(100, DATAGRAM6, Verdict::Allow, FIRST)],
        counts: &[(100, 1, 48), (65535, 0, 0)],
        clock: 0,
    },
    Worked {
        name: "ipv6_fragment_header",
        rules: &[(100, 0, Deed::DenyOf(Parts::ToPort(6)))],
        packets: &[
            (100, OPTIONS6, Verdict::Deny, FIRST),
            (100, FIRST_FRAGMENT6, Verdict::Deny, FIRST),
        ],
        counts: &[(100, 2, 112), (65535, 0, 0)],
        clock: 0,
    },
    Worked {
        name: "automatic_number_stops_at_65534",
        rules: &[
            (65434, 0, Deed::Count),
            (0, 0, Deed::Count),
            (0, 0, Deed::Count),
        ],
        packets: &[],
        counts: &[(65434, 0, 0), (65534, 0, 0), (65534, 0, 0), (65535, 0, 0)],
        clock: 0,
    },
];

/// The judgement, where the states answer each ask.
fn judged_over(
    edition: &Edition,
    packet: &AnyIp<'_>,
    port: &Port,
    second: u32,
    states: &mut States,
    tally: &mut Tally,
) -> Option<Judgement>
    requires { edition.now.config.greatest_counter < length tally.old }
{
    let question = Question::new(edition, packet, port, second);
    let mut paused = Paused::new();
    let mut judgement = begin(&question, &mut paused, tally);
    for _turn in 0..9 {
        if judgement.is_some() {
            break;
        }
        let reply = states.step(paused.ask());
        if !is_reply_to(edition, paused.ask(), &reply) {
            return None;
        }
        judgement = resume(&question, &mut paused, reply, tally);
    }
    judgement
}

/// What a packet comes to at its second.
fn judgement_of(
    rt: &impl Abort,
    edition: &Edition,
    port: &Port,
    states: &mut States,
    tally: &mut Tally,
    (second, frame, _, _): Timed,
) -> Result<Option<Judgement>, Fail> {
    let packet = packet_of(rt, frame)?;
    tally.fit(edition.config().counters())?;
    Ok(judged_over(edition, &packet, port, second, states, tally))
}

/// Each packet of the row comes to its judgement.
fn check_packets(
    rt: &impl Abort,
    alloc: Global,
    row: &Worked,
    edition: &Edition,
    states: &mut States,
    tally: &mut Tally,
) -> Result<(), Fail> {
    let port = incoming(alloc)?;
    for packet in row.packets {
        let (second, _, verdict, rule) = *packet;
        let judgement = judgement_of(rt, edition, &port, states, tally, *packet)?;
        let wanted = Judgement {
            edition: 7,
            verdict,
            rule,
            cause: Cause::Rule,
        };
        assert_eq!(rt; judgement, Some(wanted), "{} at {second}", row.name);
    }
    Ok(())
}

/// Each rule counted what the row says.
fn check_counts(rt: &impl Abort, row: &Worked, edition: &Edition, tally: &Tally) {
    let rules = edition.config().rules();
    assert_eq!(rt; rules.len(), row.counts.len(), "{}", row.name);
    for (rule, (number, packets, bytes)) in rules.iter().zip(row.counts) {
        let count = tally.count(rule.counter);
        assert_eq!(rt; rule.number, *number, "{}", row.name);
        assert_eq!(rt; count.packets, *packets, "{}", row.name);
        assert_eq!(rt; count.bytes, *bytes, "{}", row.name);
    }
}

/// A row of the table: its packets, its counts and its states.
pub fn check_worked(rt: &impl Abort, alloc: Global, row: &Worked) -> Result<(), Fail> {
    let edition = edition(alloc, row.rules)?;
    let settings = edition.config().settings();
    let mut states = States::open(alloc, settings.max, settings)?;
    let mut tally = Tally::new(alloc);
    check_packets(rt, alloc, row, &edition, &mut states, &mut tally)?;
    tally.fit(edition.config().counters())?;
    check_counts(rt, row, &edition, &tally);
    assert_eq!(rt; states.clock(), row.clock, "{}", row.name);
    assert_eq!(rt; states.count(), 0, "{}", row.name);
    Ok(())
}
