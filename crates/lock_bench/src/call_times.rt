ghost use Rattle.std.specs.Prelude.{◌≡◌, ◌<◌, ◌≤◌, All};
ghost use Rattle.std.specs.Thread.{IsSync};

use crate::publisher::publish_until;
use crate::reader::{Lock, Reader, open_lock, sections};
use bench_times::print_mean_of_threads;
use rm_lock::Opened;
use std::alloc::{AllocError, Global};
use std::io::Print;
use std::sync::Wait;
use std::sync::atomic::{AtomicBool, Ordering};
use std::thread;
use std::thread::{Threads, join};
use std::time::Clock;

/// The sections of all readers, each in a thread of its own. At the end it says that they are done.
fn all_sections<R: Threads + Wait + Clock + Sync>(
    rt: &R,
    lock: &Lock,
    readers: Vec<Reader>,
    rounds: u32,
    done: &AtomicBool,
) -> Result<Vec<Option<u64>>, AllocError>
    requires locks { All (λ p. p.table_id ≡ lock.now) readers.items }
{
    let times = thread::map_vec(
        rt,
        readers,
        &|reader: Reader| -> Option<u64>
            requires { reader.table_id ≡ lock.now }
        { sections(rt, lock, reader, rounds).ok() },
    );
    done.store(true, Ordering::SeqCst);
    times
}

/// Sections through the lock's calls.
pub fn print_calls<R: Threads + Wait + Clock + Print + Sync>(
    rt: &R,
    alloc: Global,
    threads: u32,
    rounds: u32,
) -> anyhow::Result<()>
    requires some { 0 < threads }
    requires few { threads ≤ 64 }
{
    let Opened {
        lock,
        processors,
        operator: _,
    } = open_lock(alloc, threads)?;
    let done = AtomicBool::new(false);
    let times = all_sections(rt, &lock, processors, rounds, &done)?;
    print_mean_of_threads(rt, "enter, read, leave", times.as_slice(), rounds)
}

/// The same while an operator publishes about 100 times a second.
pub fn print_calls_beside_publications<R: Threads + Wait + Clock + Print + Sync>(
    rt: &R,
    alloc: Global,
    threads: u32,
    rounds: u32,
) -> anyhow::Result<()>
    requires some { 0 < threads }
    requires few { threads ≤ 64 }
{
    let Opened {
        lock,
        processors,
        operator,
    } = open_lock(alloc, threads)?;
    let done = AtomicBool::new(false);
    let table = &lock;
    let flag = &done;
    let (times, published) = join(
        rt,
        move || -> Result<Vec<Option<u64>>, AllocError>
            requires { IsSync R.row × All (λ p. p.table_id ≡ table.now) processors.items }
        { all_sections(rt, table, processors, rounds, flag) },
        move || -> Result<u32, AllocError>
            requires { (operator.table_id ≡ table.now) × (operator.view.count ≡ threads) }
        { publish_until(rt, alloc, table, operator, threads, flag) },
    );
    print_mean_of_threads(
        rt,
        "the same beside publications",
        times?.as_slice(),
        rounds,
    )?;
    println!(rt; "{:32} {:>8} times", "    published", published?)?;
    Ok(())
}
