ghost use Rattle.std.specs.Prelude.{◌<◌, ◌≤◌};

use crate::ask_times::{SECTIONS_AN_ASK, print_asks};
use crate::call_times::{print_calls, print_calls_beside_publications};
use crate::own_words::OwnWords;
use crate::shared::{Means, Shared};
use crate::worker::{Kind, Worker, open_table};
use anyhow::Result;
use bench_times::print_mean_of_threads;
use rm_table::OpenTable;
use std::alloc::Global;
use std::io::Print;
use std::sync::Wait;
use std::thread;
use std::thread::Threads;
use std::time::Clock;

/// Two stores and a load on words of each thread's own.
fn print_own_words<R: Threads + Clock + Print + Sync>(
    rt: &R,
    alloc: Global,
    threads: u32,
    rounds: u32,
) -> Result<()> {
    let mut words = Vec::with_capacity(alloc, threads as usize)?;
    for _ in 0..threads {
        words.push(OwnWords::new())?;
    }
    let times = thread::map_indices(
        rt,
        alloc,
        threads as usize,
        &|lane| { words.get(lane).and_then(|own| own.rounds(rt, rounds).ok()) },
    )?;
    print_mean_of_threads(rt, "two stores and a load", times.as_slice(), rounds)
}

/// Sections on a table, of that kind.
fn print_sections<R: Threads + Clock + Print + Sync>(
    rt: &R,
    alloc: Global,
    threads: u32,
    rounds: u32,
    name: &str,
    kind: Kind,
) -> Result<()>
    requires some { 0 < threads }
    requires few { threads ≤ 64 }
{
    let OpenTable { table, mut seat } = open_table(alloc, threads)?;
    let workers = Worker::all(alloc, &table, &mut seat, threads)?;
    let times = thread::map_vec(
        rt,
        workers,
        &|worker: Worker<'_>| worker.sections(rt, kind, rounds).ok(),
    )?;
    print_mean_of_threads(rt, name, times.as_slice(), rounds)
}

/// Reads an edition that all threads share by these means.
fn print_shared<R: Threads + Wait + Clock + Print + Sync>(
    rt: &R,
    alloc: Global,
    threads: u32,
    rounds: u32,
    name: &str,
    means: Means,
) -> Result<()> {
    let shared = Shared::new(alloc)?;
    let times = thread::map_indices(
        rt,
        alloc,
        threads as usize,
        &|_| shared.rounds(rt, means, rounds).ok(),
    )?;
    print_mean_of_threads(rt, name, times.as_slice(), rounds)
}

/// Prints the time of a section in each of so many threads, and of what it is compared with.
pub fn print_times<R: Threads + Wait + Clock + Print + Sync>(
    rt: &R,
    alloc: Global,
    threads: u32,
    rounds: u32,
) -> Result<()>
    requires some { 0 < threads }
    requires few { threads ≤ 64 }
{
    println!(rt; "{threads} threads, {rounds} sections in each")?;
    print_own_words(rt, alloc, threads, rounds)?;
    print_sections(
        rt,
        alloc,
        threads,
        rounds,
        "raise, check, lower",
        Kind::Words,
    )?;
    print_sections(
        rt,
        alloc,
        threads,
        rounds,
        "the same, edition taken",
        Kind::Edition,
    )?;
    print_sections(
        rt,
        alloc,
        threads,
        rounds,
        "the same, book entered",
        Kind::Book,
    )?;
    print_calls(rt, alloc, threads, rounds)?;
    print_calls_beside_publications(rt, alloc, threads, rounds)?;
    print_shared(rt, alloc, threads, rounds, "RwLock: read", Means::RwLock)?;
    print_shared(rt, alloc, threads, rounds, "Mutex: lock", Means::Mutex)?;
    print_shared(rt, alloc, threads, rounds, "Arc: clone, drop", Means::Arc)?;
    print_asks(rt, alloc, threads, rounds / SECTIONS_AN_ASK)
}
