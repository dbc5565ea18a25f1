//! The times that the benches take, and what they print of them.
//!
//! Tests: none.
#![tactic(auto)]

use anyhow::{Result, bail};
use std::io;
use std::io::Print;
use std::time::{Clock, Instant};

/// Between two publications of an operator beside what is timed, in milliseconds.
pub const PAUSE: u64 = 10;

/// The nanoseconds since the start; 2^64 - 1 where they are more. It fails where the clock can't be read.
pub fn nanoseconds(clock: &impl Clock, start: Instant) -> io::Result<u64> {
    Ok(u64::try_from(start.elapsed(clock)?.as_nanos()).unwrap_or(u64::MAX))
}

/// The milliseconds in so many nanoseconds.
pub fn milliseconds(time: u64) -> u64 {
    time / 1_000_000
}

/// How many were done in a second, where so many took this time, in nanoseconds.
pub fn rate(count: u64, time: u64) -> u128 {
    u128::from(count) * 1_000_000_000 / u128::from(time.max(1))
}

/// Prints a line with the mean time of a round, in nanoseconds and tenths, where so many rounds took this time together.
pub fn print_mean<R: Print>(rt: &R, name: &str, time: u64, rounds: u32) -> Result<()> {
    print_share(rt, name, u128::from(time), u128::from(rounds))
}

/// Prints a line with the mean of the threads' times for a round, where each went so many rounds. It fails where a thread
/// has no time.
pub fn print_mean_of_threads<R: Print>(
    rt: &R,
    name: &str,
    times: &[Option<u64>],
    rounds: u32,
) -> Result<()> {
    let mut all = 0u128;
    for time in times {
        let Some(time) = *time else {
            bail!("a thread has no time: it wanted memory, or the clock can't be read");
        };
        all = all.wrapping_add(u128::from(time));
    }
    let shares = u128::from(rounds).wrapping_mul(times.len() as u128);
    print_share(rt, name, all, shares)
}

/// Prints a line with how many of these the threads together did in a second, where each did so many in its time. It
/// fails where a thread has no time.
pub fn print_rate_of_threads<R: Print>(
    rt: &R,
    name: &str,
    times: &[Option<u64>],
    rounds: u32,
    what: &str,
) -> Result<()> {
    let mut all = 0u128;
    for time in times {
        let Some(time) = *time else {
            bail!("a thread has no time: it wanted memory, or the clock can't be read");
        };
        all = all.wrapping_add(rate(u64::from(rounds), time));
    }
    println!(rt; "{name:44} {all:>12} {what} a second")?;
    Ok(())
}

fn print_share<R: Print>(rt: &R, name: &str, time: u128, shares: u128) -> Result<()> {
    let tenths = time.wrapping_mul(10) / shares.max(1);
    println!(rt; "{name:44} {:>8}.{} ns", tenths / 10, tenths % 10)?;
    Ok(())
}
