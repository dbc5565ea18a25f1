ghost use Rattle.std.specs.Prelude.{◌≤◌};

use crate::captures::four;
use anyhow::{Result, bail};
use bench_configurations::configured;
use bench_times::{milliseconds, nanoseconds, rate};
use fw_base::{FreeGate, MOST_LOAD_RECORDS};
use live_replay::{Runner, replay_live};
use serial_replay::replay_serial;
use std::alloc::Global;
use std::io::Print;
use std::sync::Wait;
use std::thread::Threads;
use std::time::{Clock, Instant};

/// Prints a line with the records of four captures in a second. The time is in nanoseconds.
fn print_rate<R: Print>(rt: &R, name: &str, records: u32, time: u64) -> Result<()> {
    println!(rt;
        "{name:12} {:>12} records a second, {} ms",
        rate(4 * u64::from(records), time),
        milliseconds(time)
    )?;
    Ok(())
}

/// In one thread, merged by time.
pub fn print_serial<R: Clock + Print>(
    rt: &R,
    alloc: Global,
    rules: &str,
    records: u32,
) -> Result<()>
    requires { (1 ≤ records) × (records ≤ MOST_LOAD_RECORDS) }
{
    let config = configured(alloc, rules)?;
    let captures = four(alloc, records)?;
    let start = Instant::now(rt)?;
    let replayed = replay_serial(alloc, config, &[], None, captures);
    let time = nanoseconds(rt, start)?;
    if replayed.is_err() {
        bail!("memory was wanted");
    }
    print_rate(rt, "serial", records, time)
}

/// A thread for each capture, beside one for the operator.
pub fn print_live<R: Threads + Wait + Clock + Print + Sync>(
    rt: &R,
    alloc: Global,
    rules: &str,
    records: u32,
) -> Result<()>
    requires { (1 ≤ records) × (records ≤ MOST_LOAD_RECORDS) }
{
    let config = configured(alloc, rules)?;
    let captures = four(alloc, records)?;
    let gate = FreeGate;
    let start = Instant::now(rt)?;
    let runner = Runner { rt, gate: &gate };
    let replayed = replay_live(runner, alloc, config, &[], None, captures);
    let time = nanoseconds(rt, start)?;
    if replayed.is_err() {
        bail!("memory was wanted");
    }
    print_rate(rt, "live", records, time)
}
