ghost use Rattle.std.specs.Prelude.{◌<◌, ◌≤◌};
ghost use Rattle.fw_rule.specs.Settings.{IsLifetime};

use crate::flows::{install, settings};
use anyhow::Result;
use bench_asks::lookup;
use bench_times::{nanoseconds, print_mean};
use dyn_states::{ScannedStates, States};
use fw_base::OutOfMemory;
use fw_rule::MOST_STATES;
use state_asks::FlowName;
use std::alloc::Global;
use std::io;
use std::io::Print;
use std::time::{Clock, Instant};

/// The second of the first ask.
const START: u32 = 1_000_000;

/// A host of so many, each asked as often as the others, and not in their order.
fn nth_host(turn: u32, hosts: u32) -> u32
    requires { 0 < hosts }
{
    turn.wrapping_mul(2_654_435_761) % hosts
}

/// States that live so many seconds, one for each host below the number.
fn filled(alloc: Global, seconds: u32, hosts: u32) -> Result<States, OutOfMemory>
    requires { IsLifetime seconds }
{
    let mut states = States::open(alloc, MOST_STATES, settings(seconds))?;
    for host in 0..hosts {
        states.step(&install(host, START, Some(u16::MAX)));
    }
    Ok(states)
}

/// Installs, each of a flow that has no state.
fn time_installs<R: Clock>(rt: &R, alloc: Global, live: u32) -> Result<u64> {
    let mut states = States::open(alloc, MOST_STATES, settings(10))?;
    let start = Instant::now(rt)?;
    for host in 0..live {
        states.step(&install(host, START, None));
    }
    Ok(nanoseconds(rt, start)?)
}

/// Lookups, each of which finds.
fn time_lookups<R: Clock>(rt: &R, states: &mut States, live: u32, asks: u32) -> io::Result<u64>
    requires { 0 < live }
{
    let start = Instant::now(rt)?;
    for turn in 0..asks {
        states.step(&lookup(nth_host(turn, live), START, FlowName::Named(0)));
    }
    nanoseconds(rt, start)
}

/// Installs under a limit that all live states have reached.
fn time_limits<R: Clock>(rt: &R, states: &mut States, live: u32, asks: u32) -> io::Result<u64> {
    let start = Instant::now(rt)?;
    for turn in 0..asks {
        states.step(&install(live.wrapping_add(turn), START, Some(1)));
    }
    nanoseconds(rt, start)
}

/// The clock rises at each ask: one state dies, and one is made.
fn time_rises<R: Clock>(rt: &R, alloc: Global, live: u32, asks: u32) -> Result<u64>
    requires { IsLifetime live }
{
    let mut states = States::open(alloc, MOST_STATES, settings(live))?;
    for host in 0..live {
        states.step(&install(host, START.wrapping_add(host), None));
    }
    let begun = START.wrapping_add(live);
    let start = Instant::now(rt)?;
    for turn in 0..asks {
        states.step(&install(live.wrapping_add(turn), begun.wrapping_add(turn), None));
    }
    Ok(nanoseconds(rt, start)?)
}

/// Lookups in the plain list, each of which finds.
fn time_scans<R: Clock>(rt: &R, alloc: Global, live: u32, asks: u32) -> Result<u64>
    requires { 0 < live }
{
    let mut states = ScannedStates::open(alloc, MOST_STATES, settings(10))?;
    for host in 0..live {
        states.step(&install(host, START, None));
    }
    let start = Instant::now(rt)?;
    for turn in 0..asks {
        states.step(&lookup(nth_host(turn, live), START, FlowName::Named(0)));
    }
    Ok(nanoseconds(rt, start)?)
}

/// Prints what an ask of each kind costs where so many states are live.
pub fn print_asks<R: Clock + Print>(rt: &R, alloc: Global, live: u32, asks: u32) -> Result<()>
    requires { IsLifetime live }
{
    println!(rt; "{live} states live")?;
    print_mean(rt, "an install", time_installs(rt, alloc, live)?, live)?;
    let mut states = filled(alloc, 10, live)?;
    let found = time_lookups(rt, &mut states, live, asks)?;
    print_mean(rt, "a lookup that finds", found, asks)?;
    let limited = time_limits(rt, &mut states, live, asks)?;
    print_mean(rt, "an install whose limit is reached", limited, asks)?;
    let risen = time_rises(rt, alloc, live, asks)?;
    print_mean(
        rt,
        "an install, where the clock rises and one dies",
        risen,
        asks,
    )?;
    if live == 100 {
        let scanned = time_scans(rt, alloc, live, asks)?;
        print_mean(rt, "a lookup in the plain list", scanned, asks)?;
    }
    Ok(())
}
