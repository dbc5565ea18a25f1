ghost use Rattle.std.specs.Prelude.{◌≡◌, ◌≤◌, None, All, IfOk};
ghost use Rattle.std.specs.Thread.{IsSync};

use crate::lanes::sections;
use crate::publisher::publish_until;
use crate::traffic::Traffic;
use anyhow::Result;
use bench_configurations::configured;
use bench_times::print_rate_of_threads;
use shared_world::{Lane, OpenWorld, World};
use std::alloc::{AllocError, Global};
use std::io::Print;
use std::sync::Wait;
use std::sync::atomic::{AtomicBool, Ordering};
use std::thread;
use std::thread::{Threads, join};
use std::time::Clock;

/// The sections of all lanes, each in a thread of its own. At the end it says that they are done.
fn all_sections<R: Threads + Wait + Clock + Sync>(
    rt: &R,
    alloc: Global,
    world: &World,
    lanes: Vec<Lane>,
    count: u32,
    done: &AtomicBool,
) -> Result<Vec<Option<u64>>, AllocError>
    requires lanes { All (λ lane. (lane.world ≡ world.now) × (lane.cache ≡ None)) lanes.items }
{
    let times = thread::map_vec(
        rt,
        lanes,
        &|lane: Lane| -> Option<u64>
            requires { (lane.world ≡ world.now) × (lane.cache ≡ None) }
        { sections(rt, alloc, world, lane, count).ok() },
    );
    done.store(true, Ordering::SeqCst);
    times
}

/// Prints what so many threads judge in a second, alone and beside an operator that publishes.
pub fn print_sections<R: Threads + Wait + Clock + Print + Sync>(
    rt: &R,
    alloc: Global,
    threads: u32,
    count: u32,
    traffic: Traffic,
) -> Result<()>
    requires some { 1 ≤ threads }
    requires few { threads ≤ 16 }
{
    println!(rt;
        "{threads} threads, {count} sections in each, {}",
        traffic.name()
    )?;
    print_alone(rt, alloc, threads, count, traffic)?;
    print_beside_publications(rt, alloc, threads, count, traffic)
}

/// A world of so many lanes with the rules of the traffic.
fn open(alloc: Global, threads: u32, traffic: Traffic) -> Result<OpenWorld>
    requires some { 1 ≤ threads }
    requires few { threads ≤ 16 }
    ensures lanes { IfOk result (λ opened.
        All (λ lane. (lane.world ≡ opened.world) × (lane.cache ≡ None)) opened.lanes.items) }
    ensures desk { IfOk result (λ opened. opened.desk.world ≡ opened.world) }
{
    let config = configured(alloc, traffic.script())?;
    Ok(World::open(alloc, config, threads, None)?)
}

fn print_alone<R: Threads + Wait + Clock + Print + Sync>(
    rt: &R,
    alloc: Global,
    threads: u32,
    count: u32,
    traffic: Traffic,
) -> Result<()>
    requires some { 1 ≤ threads }
    requires few { threads ≤ 16 }
{
    let OpenWorld {
        world,
        lanes,
        desk: _,
    } = open(alloc, threads, traffic)?;
    let done = AtomicBool::new(false);
    let times = all_sections(rt, alloc, &world, lanes, count, &done)?;
    print_rate_of_threads(
        rt,
        "enter, judge, leave",
        times.as_slice(),
        count,
        "packets",
    )
}

fn print_beside_publications<R: Threads + Wait + Clock + Print + Sync>(
    rt: &R,
    alloc: Global,
    threads: u32,
    count: u32,
    traffic: Traffic,
) -> Result<()>
    requires some { 1 ≤ threads }
    requires few { threads ≤ 16 }
{
    let OpenWorld { world, lanes, desk } = open(alloc, threads, traffic)?;
    let done = AtomicBool::new(false);
    let world = &world;
    let flag = &done;
    let (times, published) = join(
        rt,
        move || -> Result<Vec<Option<u64>>, AllocError>
            requires { IsSync R.row
                × All (λ lane. (lane.world ≡ world.now) × (lane.cache ≡ None)) lanes.items }
        { all_sections(rt, alloc, world, lanes, count, flag) },
        move || -> Result<u32>
            requires { desk.world ≡ world.now }
        { publish_until(rt, alloc, world, desk, flag) },
    );
    print_rate_of_threads(
        rt,
        "the same beside publications",
        times?.as_slice(),
        count,
        "packets",
    )?;
    println!(rt; "{:44} {:>12} times", "    published", published?)?;
    Ok(())
}
