ghost use Rattle.std.specs.Prelude.{◌≡◌, ◌+◌, ◌<◌, ◌≤◌, ◌^◌};
ghost use Rattle.fw_rule.specs.Settings.{IsLifetime, IsMostStates};

mod worked_rows;

use dyn_states::{ScannedStates, States};
use fw_base::{Addr, Name};
use fw_rule::{LimitMask, Settings, USUAL_MOST_STATES};
use memory_files::MemorySink;
use packet_headers::Flow;
use state_asks::{Facts, FlowName, Identities, Op, Reply, RuleRef, Way, is_ordered};
use state_texts::write_states;
use std::alloc::Global;
use std::process::Abort;
use std::test::Fail;

const FIN: u8 = 1;

const SYN: u8 = 2;

const RST: u8 = 4;

const ACK: u8 = 16;

const HERE: Addr = Addr(0x0a00_0001);

const THERE: Addr = Addr(0xc000_0201);

fn usual() -> Settings
    ensures { result.max ≡ 16384 }
{
    settings(1, 1, USUAL_MOST_STATES, false)
}

fn settings(fin: u32, rst: u32, max: u32, keep: bool) -> Settings
    requires fin { IsLifetime fin }
    requires rst { IsLifetime rst }
    requires max { IsMostStates max }
    ensures { result.max ≡ max }
{
    Settings {
        ack: 300,
        syn: 20,
        fin,
        rst,
        udp: 10,
        short: 5,
        max,
        keep,
    }
}

fn flow(protocol: u8, source: Addr, port: u16, destination: Addr, other: u16) -> Flow {
    Flow {
        protocol,
        source,
        source_port: port,
        destination,
        destination_port: other,
    }
}

/// A datagram from port 5 here to port 6 there, and others from another port.
fn datagram(port: u16) -> Flow {
    flow(17, HERE, port, THERE, 6)
}

/// A segment from a port here to port 80 there.
fn segment(port: u16) -> Flow {
    flow(6, HERE, port, THERE, 80)
}

/// The segment's answer.
fn answer(port: u16) -> Flow {
    flow(6, THERE, 80, HERE, port)
}

fn lookup(flow: Flow, flags: u8, second: u32, name: FlowName) -> Op {
    Op::Lookup {
        flow,
        flags,
        second,
        name,
    }
}

fn find(flow: Flow, flags: u8, second: u32) -> Op {
    lookup(flow, flags, second, FlowName::Named(0))
}

fn install(flow: Flow, flags: u8, second: u32, rule: RuleRef, name: u8) -> Op {
    Op::Install {
        flow,
        flags,
        second,
        rule,
        limit: None,
        name,
    }
}

fn limited(flow: Flow, second: u32, rule: RuleRef, limit: (LimitMask, u16)) -> Op {
    Op::Install {
        flow,
        flags: SYN,
        second,
        rule,
        limit: Some(limit),
        name: 0,
    }
}

fn assert_answers(rt: &impl Abort, states: &mut States, rows: &[(Op, Reply)]) {
    for (op, reply) in rows {
        assert_eq!(rt; states.step(op), *reply, "{op:?}");
    }
}

fn facts(rt: &impl Abort, number: u64, rules: Identities, keep: bool) -> Facts {
    assert!(rt; is_ordered(rules.as_slice()));
    Facts {
        number,
        rules,
        settings: settings(1, 1, USUAL_MOST_STATES, keep),
    }
}

fn publish(rt: &impl Abort, states: &mut States, facts: &Facts) {
    assert!(rt; facts.settings.max as usize <= states.room());
    states.publish(facts);
}

/// The names of flows, by their numbers.
fn names(alloc: Global) -> Result<[Name; 3], Fail> {
    Ok([
        Name::new(alloc, b"default")?,
        Name::new(alloc, b"web")?,
        Name::new(alloc, b"dns")?,
    ])
}

/// The name `web`.
const WEB: FlowName = FlowName::Named(1);

/// What `write_states` writes, compared with the text.
fn assert_printed(rt: &impl Abort, alloc: Global, states: &States, text: &str) -> Result<(), Fail> {
    let mut out = MemorySink::new(alloc, 1024)?;
    write_states(states, &names(alloc)?, &mut out).or(Err("not written"))?;
    assert_eq!(rt; out.written(), text.as_bytes());
    Ok(())
}

const RULE: RuleRef = RuleRef { id: 2, number: 200 };

const OTHER_RULE: RuleRef = RuleRef { id: 3, number: 300 };

const LAST_RULE: RuleRef = RuleRef {
    id: 0,
    number: 65_535,
};

/// States of one flow at second 101: of `RULE` under `dns`, of `OTHER_RULE` under `web`.
fn named_states(rt: &impl Abort, alloc: Global) -> Result<States, Fail> {
    let mut states = States::open(alloc, USUAL_MOST_STATES, usual())?;
    assert_answers(
        rt,
        &mut states,
        &[
            (lookup(datagram(5), 0, 100, WEB), Reply::NotFound),
            (install(datagram(5), 0, 100, RULE, 2), Reply::Created),
            (lookup(datagram(5), 0, 101, WEB), Reply::NotFound),
            (install(datagram(5), 0, 101, OTHER_RULE, 1), Reply::Created),
            (
                lookup(datagram(5), 0, 101, FlowName::Any),
                Reply::Found(Way::Forward, RULE),
            ),
            (
                lookup(datagram(5), 0, 101, WEB),
                Reply::Found(Way::Forward, OTHER_RULE),
            ),
        ],
    );
    Ok(states)
}

/// A publication of all rules but `RULE`.
fn drop_first(rt: &impl Abort, alloc: Global, states: &mut States) -> Result<(), Fail> {
    let left = Identities::new(alloc, vec![in alloc; 0, 1, 3]?)?;
    publish(rt, states, &facts(rt, 2, left, false));
    Ok(())
}

#[test]
fn names_tell_states_apart(rt: HostRuntime) -> Result<(), Fail> {
    let states = named_states(&rt, rt.alloc())?;
    assert_printed(
        &rt,
        rt.alloc(),
        &states,
        "clock 101\nstates 2\n\
        00200 udp 10.0.0.1 5 192.0.2.1 6 expires 111 :dns\n\
        00300 udp 10.0.0.1 5 192.0.2.1 6 expires 111 :web\n",
    )
}

#[test]
fn publication_drops_states(rt: HostRuntime) -> Result<(), Fail> {
    let mut states = named_states(&rt, rt.alloc())?;
    drop_first(&rt, rt.alloc(), &mut states)?;
    assert_printed(
        &rt,
        rt.alloc(),
        &states,
        "clock 101\nstates 1\n00300 udp 10.0.0.1 5 192.0.2.1 6 expires 111 :web\n",
    )
}

#[test]
fn kept_state_gets_the_last_rule(rt: HostRuntime) -> Result<(), Fail> {
    let mut states = named_states(&rt, rt.alloc())?;
    drop_first(&rt, rt.alloc(), &mut states)?;
    let last = Identities::new(rt.alloc(), vec![in rt.alloc(); 0]?)?;
    publish(&rt, &mut states, &facts(&rt, 3, last, true));
    let found = Reply::Found(Way::Forward, LAST_RULE);
    assert_answers(
        &rt,
        &mut states,
        &[(lookup(datagram(5), 0, 102, WEB), found)],
    );
    assert_printed(
        &rt,
        rt.alloc(),
        &states,
        "clock 102\nstates 1\n65535 udp 10.0.0.1 5 192.0.2.1 6 expires 112 :web\n",
    )
}

/// The lifetimes by the flags seen forward, a row each, and those seen in reverse, a column each: none,
/// F, S, SF, R, RF, RS, RSF.
const LIFETIMES: [[u64; 8]; 8] = [
    [3, 3, 3, 3, 3, 3, 3, 3],
    [3, 3, 3, 3, 3, 3, 3, 3],
    [20, 3, 300, 300, 3, 3, 3, 3],
    [3, 3, 300, 7, 3, 3, 3, 3],
    [3, 3, 3, 3, 3, 3, 3, 3],
    [3, 3, 3, 3, 3, 3, 3, 3],
    [3, 3, 3, 3, 3, 3, 3, 3],
    [3, 3, 3, 3, 3, 3, 3, 3],
];

#[test]
fn lifetimes_by_the_flags_seen(rt: HostRuntime) -> Result<(), Fail> {
    let settings = settings(7, 3, USUAL_MOST_STATES, false);
    for (forward, row) in LIFETIMES.iter().enumerate() {
        for (reverse, seconds) in row.iter().enumerate() {
            let mut states = States::open(rt.alloc(), USUAL_MOST_STATES, settings)?;
            let (forward, reverse) = (forward as u8, reverse as u8);
            assert_answers(
                &rt,
                &mut states,
                &[
                    (
                        install(segment(9), forward | ACK, 100, RULE, 0),
                        Reply::Created,
                    ),
                    (
                        find(answer(9), reverse | ACK, 100),
                        Reply::Found(Way::Reverse, RULE),
                    ),
                ],
            );
            let [state] = states.slots() else {
                return Err("not one state".into());
            };
            assert_eq!(rt;
                state.expiry.wrapping_sub(100),
                *seconds,
                "{forward} {reverse}"
            );
        }
    }
    Ok(())
}

/// A number below a bound, of a sequence that looks random.
fn draw(seed: &mut u64, below: u32) -> u32
    requires { 0 < below }
    ensures { result < below }
{
    *seed = seed
        .wrapping_mul(6_364_136_223_846_793_005)
        .wrapping_add(1_442_695_040_888_963_407);
    ((*seed >> 33) % u64::from(below)) as u32
}

/// One of few flows, in either direction, so that many collide.
fn drawn_flow(seed: &mut u64) -> Flow {
    let protocol = [6, 6, 17, 1][draw(seed, 4) as usize];
    let source = Addr(draw(seed, 3));
    let destination = Addr(draw(seed, 3));
    let port = draw(seed, 2) as u16;
    let other = draw(seed, 2) as u16;
    flow(protocol, source, port, destination, other)
}

fn drawn_rule(seed: &mut u64) -> RuleRef {
    let id = draw(seed, 4);
    RuleRef {
        id,
        number: 100 + id as u16,
    }
}

fn drawn_mask(seed: &mut u64) -> LimitMask {
    match draw(seed, 4) {
        0 => LimitMask::SrcAddr,
        1 => LimitMask::SrcPort,
        2 => LimitMask::DstAddr,
        _ => LimitMask::DstPort,
    }
}

fn drawn_op(seed: &mut u64, second: u32) -> Op {
    let flow = drawn_flow(seed);
    let flags = draw(seed, 32) as u8;
    match draw(seed, 5) {
        0 => lookup(flow, flags, second, FlowName::Any),
        1 => lookup(flow, flags, second, FlowName::Named(draw(seed, 3) as u8)),
        2 => {
            let limit = (drawn_mask(seed), draw(seed, 4) as u16);
            limited(flow, second, drawn_rule(seed), limit)
        }
        _ => install(flow, flags, second, drawn_rule(seed), draw(seed, 3) as u8),
    }
}

/// A publication of some of the rules, with or without keeping states, and a small `dyn_max`.
fn drawn_facts(rt: &impl Abort, alloc: Global, seed: &mut u64) -> Result<Facts, Fail> {
    let mut rules = vec![in alloc; 0]?;
    for id in 1..4 {
        if draw(seed, 3) > 0 {
            rules.push(id)?;
        }
    }
    assert!(rt; is_ordered(&rules));
    let keep = draw(seed, 2) == 0;
    let settings = match draw(seed, 3) {
        0 => settings(1, 2, 3, keep),
        1 => settings(2, 1, 6, keep),
        _ => settings(3, 3, 16, keep),
    };
    Ok(Facts {
        number: 2,
        rules: Identities::new(alloc, rules)?,
        settings,
    })
}

/// The two bodies hold the same states, in the same order.
fn assert_same(rt: &impl Abort, scanned: &ScannedStates, hashed: &States) {
    let mut left = scanned.states();
    for slot in hashed.slots() {
        if slot.expiry > 0 {
            match left.split_first() {
                Some((first, rest)) => {
                    assert_eq!(rt; *first, *slot);
                    left = rest;
                }
                None => assert!(rt; false, "a state more"),
            }
        }
    }
    assert_eq!(rt; left.len(), 0);
    assert_eq!(rt; scanned.clock(), hashed.clock());
}

/// The clock of the next ask: mostly the same, else it rises, jumps or falls.
fn drawn_second(seed: &mut u64, second: u32) -> u32
    requires { second < 2 ^ 31 }
    ensures { result ≤ second + 500 }
{
    match draw(seed, 12) {
        0 => second + draw(seed, 400),
        1 => second / 2,
        2 | 3 | 4 => second + draw(seed, 4),
        _ => second,
    }
}

/// The plain body and the one that ships, beside each other over random asks and publications.
#[test]
fn both_bodies_answer_alike(rt: HostRuntime) -> Result<(), Fail> {
    let mut seed = 20_261_127;
    for _ in 0..40 {
        let mut scanned = ScannedStates::open(rt.alloc(), 16, settings(1, 1, 16, false))?;
        let mut hashed = States::open(rt.alloc(), 16, settings(1, 1, 16, false))?;
        for _ in 0..500 {
            let clock = scanned.clock();
            if draw(&mut seed, 40) == 0 {
                let facts = drawn_facts(&rt, rt.alloc(), &mut seed)?;
                assert!(rt; facts.settings.max as usize <= scanned.room());
                assert!(rt; facts.settings.max as usize <= hashed.room());
                scanned.publish(&facts);
                hashed.publish(&facts);
            }
            let second = if clock < 1_000_000_000 {
                drawn_second(&mut seed, clock)
            } else {
                clock
            };
            let op = drawn_op(&mut seed, second);
            assert_eq!(rt; scanned.step(&op), hashed.step(&op), "{op:?}");
            assert_same(&rt, &scanned, &hashed);
        }
    }
    Ok(())
}

/// Fills the states at one second, each flow from another source.
fn fill(rt: &impl Abort, states: &mut States, count: u32) {
    for source in 0..count {
        let op = install(flow(17, Addr(source), 5, THERE, 6), 0, 100, RULE, 0);
        assert_eq!(rt; states.step(&op), Reply::Created, "{source}");
    }
}

/// As many states as there may be, none above, and room again when they died.
#[test]
fn states_full_and_given_up(rt: HostRuntime) -> Result<(), Fail> {
    for (count, settings) in [
        (16_384, settings(1, 1, 16_384, false)),
        (65_536, settings(1, 1, 65_536, false)),
    ] {
        let mut states = States::open(rt.alloc(), 65_536, settings)?;
        fill(&rt, &mut states, count);
        let above = flow(17, Addr(count), 5, THERE, 6);
        assert_eq!(rt;
            states.step(&install(above, 0, 100, RULE, 0)),
            Reply::TableFull(count)
        );
        assert_eq!(rt;
            states.step(&install(above, 0, 110, RULE, 0)),
            Reply::Created
        );
        assert_eq!(rt; states.count(), 1);
    }
    Ok(())
}

/// A limit of one state counts it, and nothing that died, however many were made before it.
#[test]
fn limits_hold_after_many_states(rt: HostRuntime) -> Result<(), Fail> {
    let mut states = States::open(rt.alloc(), 16, settings(1, 1, 16, false))?;
    for turn in 0..20_000u32 {
        let second = 100 + 20 * turn;
        let one = (LimitMask::SrcAddr, 1);
        let made = limited(datagram(5), second, RULE, one);
        assert_eq!(rt; states.step(&made), Reply::Created, "{turn}");
        let above = limited(datagram(7), second, RULE, one);
        assert_eq!(rt; states.step(&above), Reply::LimitReached(1), "{turn}");
    }
    Ok(())
}
