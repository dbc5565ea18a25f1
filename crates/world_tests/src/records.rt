use crate::traffic::{SECOND, TOTAL};
use counter_book::{Count, Tally};
use eval_engine::{Cause, Docket, DocketEntry, Judgement, Verdict};
use fw_world::Record;
use state_asks::{Op, Reply, RuleRef, Way};
use state_journal::Entry;
use std::process::Abort;

/// The rule of edition 1. What a world leaves whose editions of odd numbers have it, and whose even ones have the
/// last rule alone, is told here by the rules of ipfw(8), from the editions under which packets were judged.
pub(crate) const RULES: &str = "add 100 allow udp from any to any keep-state\n";

/// Behind these an edition of an odd number has that rule again, of another identity.
pub(crate) const EDITS: &str = "delete 100\nadd 100 allow udp from any to any keep-state\n";

/// What a lane did: how many sections it began, how many were refused, and how many packets it judged.
#[derive(Clone, Copy, Debug)]
pub(crate) struct Work {
    pub(crate) sections: u64,
    pub(crate) refused: u64,
    pub(crate) judged: u64,
}

/// Of a lane that has done nothing yet.
pub(crate) const NOTHING_DONE: Work = Work {
    sections: 0,
    refused: 0,
    judged: 0,
};

fn keeps_states(edition: u64) -> bool {
    edition % 2 == 1
}

/// How often the rule was added up to this edition: its identity in an edition that has it.
fn identity_in(edition: u64) -> u32 {
    u32::try_from(edition / 2)
        .unwrap_or(u32::MAX)
        .saturating_add(1)
}

fn deciding_rule(edition: u64) -> RuleRef {
    if keeps_states(edition) {
        RuleRef {
            id: identity_in(edition),
            number: 100,
        }
    } else {
        RuleRef {
            id: 0,
            number: 65535,
        }
    }
}

/// The judgement of every packet under this edition.
pub(crate) fn judgement_under(edition: u64) -> Judgement {
    Judgement {
        edition,
        verdict: if keeps_states(edition) {
            Verdict::Allow
        } else {
            Verdict::Deny
        },
        rule: deciding_rule(edition),
        cause: Cause::Rule,
    }
}

/// Compares the editions and what each publication told the states.
fn check_editions(rt: &impl Abort, record: &Record, published: u64) {
    assert_eq!(rt; record.editions().len() as u64, published);
    assert_eq!(rt; record.book().facts().len() as u64, published);
    let mut number = 0u64;
    for (edition, facts) in record.editions().iter().zip(record.book().facts()) {
        number = number.wrapping_add(1);
        assert_eq!(rt; (edition.number(), facts.number), (number, number));
        let identities = [0, identity_in(number)];
        let rules = if keeps_states(number) { 2 } else { 1 };
        assert_eq!(rt; facts.rules.as_slice(), &identities[..rules]);
        assert_eq!(rt; edition.config().rules().len(), rules);
    }
}

/// The number of the edition under which the entry was judged.
fn edition_of(rt: &impl Abort, entry: &DocketEntry) -> u64 {
    match entry.judgement() {
        Some(judgement) => judgement.edition,
        None => panic!(rt; "a packet that wasn't judged"),
    }
}

/// Compares the entries of a lane, whose editions rise, with the judgements under those editions.
fn check_docket(rt: &impl Abort, docket: &Docket, work: Work, published: u64) {
    assert_eq!(rt; docket.refused(), work.refused);
    assert_eq!(rt; docket.entries().len() as u64, work.judged);
    let mut last = 1u64;
    for entry in docket.entries() {
        let edition = edition_of(rt, entry);
        assert_eq!(rt; *entry, DocketEntry::judged(judgement_under(edition)));
        assert!(rt; last <= edition && edition <= published);
        last = edition;
    }
}

/// How many of these entries the rule of that identity decided.
fn decided_by(entries: &[DocketEntry], id: u32) -> u64 {
    let mut count = 0u64;
    for entry in entries {
        if entry
            .judgement()
            .is_some_and(|judgement| judgement.rule.id == id)
        {
            count = count.wrapping_add(1);
        }
    }
    count
}

/// Compares what a lane counted with its entries: each packet under the rule that decided it, and no other.
fn check_tally(rt: &impl Abort, tally: &Tally, docket: &Docket, published: u64) {
    for id in 0..=identity_in(published) {
        let packets = decided_by(docket.entries(), id);
        let count = Count {
            packets,
            bytes: packets.wrapping_mul(TOTAL),
        };
        assert_eq!(rt; tally.count(id), count);
    }
}

/// The hits of a lane's cache: under an edition without a rule that keeps states, each packet but the first.
fn hits_of(rt: &impl Abort, docket: &Docket) -> u64 {
    let mut hits = 0u64;
    let mut last = 0u64;
    for entry in docket.entries() {
        let edition = edition_of(rt, entry);
        if edition == last && !keeps_states(edition) {
            hits = hits.wrapping_add(1);
        }
        last = edition;
    }
    hits
}

/// What the journal told so far: the last publication; and of each lane, whether its state is there, whether the
/// install of it is still to come, its last record that asked, and how many of its records asked.
#[derive(Drop)]
struct Told {
    edition: u64,
    lanes: [LaneTold; 2],
}

#[derive(Clone, Copy)]
struct LaneTold {
    is_kept: bool,
    is_owed: bool,
    last: u64,
    looked: u64,
}

/// A lookup of the lane's next record that asks finds the state, if there is one; an install makes it.
fn check_ask(rt: &impl Abort, told: &mut LaneTold, rule: RuleRef, at: u64, op: Op, reply: Reply) {
    match op {
        Op::Lookup { .. } => {
            let found = Reply::Found(Way::Forward, rule);
            assert_eq!(rt; reply, if told.is_kept { found } else { Reply::NotFound });
            assert!(rt; told.last < at && !told.is_owed);
            told.is_owed = !told.is_kept;
            told.looked = told.looked.wrapping_add(1);
            told.last = at;
        }
        Op::Install { rule: keeper, .. } => {
            assert_eq!(rt; (reply, keeper, at), (Reply::Created, rule, told.last));
            assert!(rt; told.is_owed);
            told.is_owed = false;
            told.is_kept = true;
        }
    }
}

/// An entry of the journal: the next publication, or an ask of a lane under the edition of the last one.
fn check_entry(rt: &impl Abort, told: &mut Told, dockets: &[Docket], entry: &Entry) {
    match *entry {
        Entry::Publish(number) => {
            assert_eq!(rt; number, told.edition.wrapping_add(1));
            told.edition = number;
            for lane in &mut told.lanes {
                assert!(rt; !lane.is_owed);
                lane.is_kept = false;
            }
        }
        Entry::Ask {
            lane,
            op,
            reply,
            at,
        } => {
            let place = usize::from(lane).wrapping_sub(1);
            let (Some(docket), Some(lane)) = (dockets.get(place), told.lanes.get_mut(place)) else {
                panic!(rt; "an ask of no lane");
            };
            let index = usize::try_from(at).unwrap_or(0).wrapping_sub(1);
            let judged = DocketEntry::judged(judgement_under(told.edition));
            assert_eq!(rt; docket.entries().get(index).copied(), Some(judged));
            assert!(rt; keeps_states(told.edition));
            check_ask(rt, lane, deciding_rule(told.edition), at, op, reply);
        }
    }
}

/// Compares the journal with the dockets: each packet under an edition that keeps states asked, and no other.
fn check_journal(rt: &impl Abort, record: &Record, published: u64) {
    let lane = LaneTold {
        is_kept: false,
        is_owed: false,
        last: 0,
        looked: 0,
    };
    let mut told = Told {
        edition: 0,
        lanes: [lane; 2],
    };
    for entry in record.book().entries() {
        check_entry(rt, &mut told, record.dockets(), entry);
    }
    assert_eq!(rt; told.edition, published);
    let mut kept = 0usize;
    let mut looked = 0u64;
    for (lane, docket) in told.lanes.iter().zip(record.dockets()) {
        let plain = decided_by(docket.entries(), 0);
        assert_eq!(rt;
            lane.looked,
            (docket.entries().len() as u64).wrapping_sub(plain)
        );
        looked = looked.wrapping_add(lane.looked);
        kept = kept.wrapping_add(usize::from(lane.is_kept));
    }
    let clock = if looked == 0 { 0 } else { SECOND };
    let states = record.book().states();
    assert_eq!(rt; (states.count(), states.clock()), (kept, clock));
}

/// Compares the record of a world that published so many editions with what its lanes did, which had a cache or
/// had none.
pub(crate) fn check_record(
    rt: &impl Abort,
    record: &Record,
    works: &[Work],
    published: u64,
    has_cache: bool,
) {
    check_editions(rt, record, published);
    assert_eq!(rt; record.dockets().len(), works.len());
    assert_eq!(rt; record.tallies().len(), works.len());
    assert_eq!(rt; record.trackers().len(), works.len());
    assert_eq!(rt;
        record.hits().len(),
        if has_cache { works.len() } else { 0 }
    );
    for (docket, work) in record.dockets().iter().zip(works) {
        check_docket(rt, docket, *work, published);
    }
    for (tally, docket) in record.tallies().iter().zip(record.dockets()) {
        check_tally(rt, tally, docket, published);
    }
    for (tracker, work) in record.trackers().iter().zip(works) {
        assert_eq!(rt; *tracker, work.sections.wrapping_mul(2));
    }
    for (hits, docket) in record.hits().iter().zip(record.dockets()) {
        assert_eq!(rt; *hits, hits_of(rt, docket));
    }
    check_journal(rt, record, published);
}

/// Compares what a lane left with its work, and with the editions under which it judged its packets.
pub(crate) fn check_lane(
    rt: &impl Abort,
    record: &Record,
    place: usize,
    work: Work,
    editions: &[u64],
) {
    let index = place.wrapping_sub(1);
    let (Some(docket), Some(tracker)) = (record.dockets().get(index), record.trackers().get(index))
    else {
        panic!(rt; "no such lane");
    };
    assert_eq!(rt; *tracker, work.sections.wrapping_mul(2));
    assert_eq!(rt; docket.refused(), work.refused);
    assert_eq!(rt; docket.entries().len(), editions.len());
    for (entry, edition) in docket.entries().iter().zip(editions) {
        assert_eq!(rt; *entry, DocketEntry::judged(judgement_under(*edition)));
    }
}

/// That the record has two editions, the first and the last of what its journal tells.
pub(crate) fn check_two_editions(rt: &impl Abort, record: &Record) {
    assert_eq!(rt; record.editions().len(), 2);
    let entries = record.book().entries();
    assert_eq!(rt; entries.first().copied(), Some(Entry::Publish(1)));
    assert_eq!(rt; entries.last().copied(), Some(Entry::Publish(2)));
}
