ghost use Rattle.std.specs.Prelude.{◌≡◌, ◌≤◌, IfOk};
ghost use Rattle.std.specs.Thread.{IsSync};
ghost use Rattle.world_tests.specs.Lanes.{IsLaneAt};

use crate::configuration::configured;
use crate::pair::{Callers, close_pair, open_pair};
use crate::sections::{entered, judged};
use crate::traffic::{SECOND, TOTAL, answer, datagram, port};
use crate::waits::wait_for;
use counter_book::Count;
use eval_engine::{Cause, DocketEntry, Judgement, Verdict};
use fw_base::{OutOfMemory, Port};
use fw_world::Record;
use shared_world::{Lane, World};
use state_asks::{Op, Reply, RuleRef, Way};
use state_journal::Entry;
use std::alloc::Global;
use std::process::Abort;
use std::sync::Wait;
use std::sync::atomic::{AtomicU32, Ordering};
use std::test::Fail;
use std::thread::{Threads, join};

const RULES: &str = "add 100 check-state\nadd 200 allow udp from any to any keep-state\n";

/// The rule that keeps states.
const KEEPER: RuleRef = RuleRef { id: 2, number: 200 };

/// Whatever packet comes, it is let through, since the state was made or found.
const LET_THROUGH: Judgement = Judgement {
    edition: 1,
    verdict: Verdict::Allow,
    rule: KEEPER,
    cause: Cause::Rule,
};

const FORWARD: Reply = Reply::Found(Way::Forward, KEEPER);

const REVERSE: Reply = Reply::Found(Way::Reverse, KEEPER);

/// An ask that is entered in the journal: its lane, the lane's record, and what was answered.
type Asked = (u16, u64, Reply);

/// In which order two lanes judge packets of one flow, the first those that go one way and the second those that
/// go the other; and what stands in the journal then.
const ROWS: [(&[u32], &[Asked]); 5] = [
    (
        &[1, 2],
        &[
            (1, 1, Reply::NotFound),
            (1, 1, Reply::Created),
            (2, 1, REVERSE),
        ],
    ),
    (
        &[2, 1],
        &[
            (2, 1, Reply::NotFound),
            (2, 1, Reply::Created),
            (1, 1, REVERSE),
        ],
    ),
    (
        &[1, 2, 2, 1],
        &[
            (1, 1, Reply::NotFound),
            (1, 1, Reply::Created),
            (2, 1, REVERSE),
            (2, 2, REVERSE),
            (1, 2, FORWARD),
        ],
    ),
    (
        &[2, 1, 2, 1, 1],
        &[
            (2, 1, Reply::NotFound),
            (2, 1, Reply::Created),
            (1, 1, REVERSE),
            (2, 2, FORWARD),
            (1, 2, REVERSE),
            (1, 3, REVERSE),
        ],
    ),
    (
        &[2, 2],
        &[
            (2, 1, Reply::NotFound),
            (2, 1, Reply::Created),
            (2, 2, FORWARD),
        ],
    ),
];

/// What two lanes wait for: until both are in, and for their turns.
#[derive(Drop)]
struct Gate {
    inside: AtomicU32,
    turn: AtomicU32,
}

/// The lane takes its turns: for each it is in before the turn comes, and judges and leaves in it.
fn all_turns<R: Abort + Wait>(
    rt: &R,
    world: &World,
    lane: Lane,
    port: &Port,
    order: &[u32],
    gate: &Gate,
) -> Result<Lane, OutOfMemory>
    requires lane { IsLaneAt world.now lane.place port.now lane }
    ensures lane { IfOk result (IsLaneAt world.now lane.place port.now) }
{
    let place = lane.place();
    let packet = if place == 1 { datagram(1) } else { answer(1) };
    let mut inside = entered(rt, world, lane, port);
    gate.inside.fetch_add(1, Ordering::SeqCst);
    wait_for(rt, &gate.inside, 2);
    let mut turn = 0u32;
    for next in order {
        if *next == place {
            wait_for(rt, &gate.turn, turn);
            let (lane, judgement) = judged(rt, world, inside, port, &packet)?;
            assert_eq!(rt; judgement, LET_THROUGH);
            inside = entered(rt, world, lane, port);
            gate.turn.store(turn.wrapping_add(1), Ordering::SeqCst);
        }
        turn = turn.wrapping_add(1);
    }
    Ok(world.leave(inside))
}

/// Each lane takes its turns in a thread of its own.
fn both_lanes<R: Threads + Abort + Wait + Sync>(
    rt: &R,
    world: &World,
    callers: Callers,
    port: &Port,
    order: &[u32],
) -> Result<Callers, OutOfMemory>
    requires first { IsLaneAt world.now 1 port.now callers.first }
    requires second { IsLaneAt world.now 2 port.now callers.second }
    ensures first { IfOk result (λ c. IsLaneAt world.now 1 port.now c.first) }
    ensures second { IfOk result (λ c. IsLaneAt world.now 2 port.now c.second) }
    ensures desk { IfOk result (λ c. c.desk ≡ callers.desk) }
{
    let Callers {
        first,
        second,
        desk,
    } = callers;
    let gate = &Gate {
        inside: AtomicU32::new(0),
        turn: AtomicU32::new(0),
    };
    let (first, second) = join(
        rt,
        move || -> Result<Lane, OutOfMemory>
            requires { IsLaneAt world.now 1 port.now first }
            ensures { IfOk result (IsLaneAt world.entry.now 1 port.entry.now) }
        { all_turns(rt, world, first, port, order, gate) },
        move || -> Result<Lane, OutOfMemory>
            requires { IsLaneAt world.now 2 port.now second }
            ensures { IfOk result (IsLaneAt world.entry.now 2 port.entry.now) }
        { all_turns(rt, world, second, port, order, gate) },
    );
    Ok(Callers {
        first: first?,
        second: second?,
        desk,
    })
}

/// How many turns of the order are this lane's.
fn turns_of(order: &[u32], place: u32) -> u64 {
    let mut turns = 0u64;
    for next in order {
        if *next == place {
            turns = turns.wrapping_add(1);
        }
    }
    turns
}

/// Compares what a lane left with its turns, behind the last of which it was in once more.
fn check_lane(rt: &impl Abort, record: &Record, place: u32, turns: u64) {
    let index = place.wrapping_sub(1) as usize;
    let (Some(docket), Some(tally), Some(tracker)) = (
        record.dockets().get(index),
        record.tallies().get(index),
        record.trackers().get(index),
    ) else {
        panic!(rt; "no such lane");
    };
    assert_eq!(rt; *tracker, turns.wrapping_add(1).wrapping_mul(2));
    assert_eq!(rt; docket.refused(), 0);
    assert_eq!(rt; docket.entries().len() as u64, turns);
    for entry in docket.entries() {
        assert_eq!(rt; *entry, DocketEntry::judged(LET_THROUGH));
    }
    let nothing = Count {
        packets: 0,
        bytes: 0,
    };
    let kept = Count {
        packets: turns,
        bytes: turns.wrapping_mul(TOTAL),
    };
    assert_eq!(rt;
        [tally.count(0), tally.count(1), tally.count(2)],
        [nothing, nothing, kept]
    );
}

/// Compares the journal with these asks behind the publication of edition 1.
fn check_journal(rt: &impl Abort, record: &Record, asks: &[Asked]) {
    let Some((first, entries)) = record.book().entries().split_first() else {
        panic!(rt; "an empty journal");
    };
    assert_eq!(rt; *first, Entry::Publish(1));
    assert_eq!(rt; entries.len(), asks.len());
    for (entry, asked) in entries.iter().zip(asks) {
        let Entry::Ask {
            lane,
            op,
            reply,
            at,
        } = *entry
        else {
            panic!(rt; "a second publication");
        };
        assert_eq!(rt; (lane, at, reply), *asked);
        assert_eq!(rt; matches!(op, Op::Install { .. }), reply == Reply::Created);
    }
    assert_eq!(rt;
        (
            record.book().states().count(),
            record.book().states().clock()
        ),
        (1, SECOND)
    );
}

#[test]
fn a_state_of_one_lane_is_found_by_the_other(rt: HostRuntime) -> Result<(), Fail> {
    let alloc = rt.alloc();
    let port = port(alloc)?;
    for (order, asks) in ROWS {
        let config = configured(&rt, alloc, RULES)?;
        let (world, callers) = open_pair(&rt, alloc, config, None, &port)?;
        let callers = both_lanes(&rt, &world, callers, &port, order)?;
        let record = close_pair(world, callers, &port, Vec::new(alloc))?;
        check_journal(&rt, &record, asks);
        for place in [1, 2] {
            check_lane(&rt, &record, place, turns_of(order, place));
        }
        assert_eq!(rt; record.editions().len(), 1);
    }
    Ok(())
}
