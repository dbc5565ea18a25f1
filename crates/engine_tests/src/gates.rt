//! Gates beside what they stand for, on rules and packets that look random.
mod numbers;
mod packets;
mod random_rules;

use fw_base::{Addr, Direction, Link, Name, Port};
use fw_rule::Rule;
use ip6_headers::{AnyIp, AnyPacket, read_any};
use lookup_tables::Tables;
use numbers::Numbers;
use packets::packet_bytes;
use random_rules::random_rules;
use rule_gates::{
    Gate, GateKey, Gates, admits, are_same, gates_of, is_check_state, is_exact, key_of,
    next_admitted, state_of,
};
use rule_match::matches;
use std::alloc::Global;
use std::process::Abort;
use std::sync::Arc;
use std::test::Fail;

const ROUNDS: u32 = 12;

const PACKETS: u32 = 60;

/// The host of the rules.
#[derive(Drop)]
struct Host {
    tables: Tables,
    locals: [Addr; 1],
    port: Port,
}

/// How often a rule's body held, how often its gate shut a packet out, and how often it told all.
#[derive(Clone, Copy, Debug)]
struct Seen {
    held: u32,
    shut: u32,
    told: u32,
}

/// Whether an evaluation has to look at the rule.
fn concerns(rule: &Rule, host: &Host, packet: &AnyIp<'_>) -> bool {
    let held = match &rule.body {
        Some(body) => matches(body, &host.tables, &host.locals, packet, &host.port),
        None => false,
    };
    held || state_of(rule).is_some() || is_check_state(&rule.action)
}

/// The first place from this one on whose gate admits the key, by a look at each.
fn first_admitted(gates: &[Gate], from: usize, key: &GateKey) -> usize {
    for (place, gate) in gates.iter().enumerate() {
        if place >= from && admits(gate, key) {
            return place;
        }
    }
    gates.len().max(from)
}

/// The gate of each rule beside the rule itself.
fn compare(
    rt: &impl Abort,
    host: &Host,
    rules: &[Arc<Rule>],
    all: &Gates,
    packet: &AnyIp<'_>,
    seen: Seen,
) -> Seen {
    let key = key_of(packet);
    let gates = all.as_slice();
    let mut now = seen;
    for (rule, gate) in rules.iter().zip(gates.iter()) {
        let admitted = admits(gate, &key);
        let concerned = concerns(rule, host, packet);
        if concerned {
            assert!(rt; admitted);
            now.held = now.held.saturating_add(1);
        }
        if !admitted {
            now.shut = now.shut.saturating_add(1);
        }
        if admitted && is_exact(gate) {
            assert!(rt; concerned);
            now.told = now.told.saturating_add(1);
        }
    }
    for from in (0..gates.len().saturating_add(2)).step_by(7) {
        assert_eq!(rt;
            next_admitted(all, from, &key),
            first_admitted(gates, from, &key)
        );
    }
    now
}

fn make_host(alloc: Global) -> Result<Host, Fail> {
    Ok(Host {
        tables: Tables::new(alloc),
        locals: [Addr(0x0a00_0001)],
        port: Port {
            direction: Direction::In,
            interface: Name::new(alloc, b"em0")?,
        },
    })
}

/// One list of rules, and many packets.
fn round(
    rt: &impl Abort,
    alloc: Global,
    host: &Host,
    numbers: &mut Numbers,
    seen: Seen,
) -> Result<Seen, Fail> {
    let rules = random_rules(alloc, numbers)?;
    let gates = gates_of(alloc, &rules)?;
    assert_eq!(rt; gates.len(), rules.len());
    assert!(rt; are_same(&gates, &gates_of(alloc, &rules)?));
    assert!(rt; !are_same(&gates, &gates[..gates.len().min(1)]));
    let gates = Gates::over(alloc, gates)?;
    let mut now = seen;
    for _ in 0..PACKETS {
        let (bytes, size) = packet_bytes(numbers);
        let AnyPacket::Ip(packet) = read_any(Link::Raw, &bytes[..size.min(60)]) else {
            return Err(Fail::from("no packet"));
        };
        now = compare(rt, host, &rules, &gates, &packet, now);
    }
    Ok(now)
}

/// The gate admits each packet that an evaluation has to look at the rule for; it shuts most others out,
/// and all others where it is exact.
#[test]
fn gates_admit_what_concerns_their_rules(rt: HostRuntime) -> Result<(), Fail> {
    let host = make_host(rt.alloc())?;
    let mut numbers = Numbers::new(1);
    let mut seen = Seen {
        held: 0,
        shut: 0,
        told: 0,
    };
    for _ in 0..ROUNDS {
        seen = round(&rt, rt.alloc(), &host, &mut numbers, seen)?;
    }
    assert!(rt; seen.held > 5000, "{} held", seen.held);
    assert!(rt; seen.shut > 5000, "{} shut", seen.shut);
    assert!(rt; seen.told > 200, "{} told", seen.told);
    Ok(())
}
