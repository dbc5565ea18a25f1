ghost use Rattle.std.specs.Prelude.{◌≡◌, ◌<◌, ◌≤◌};

use crate::asker::{Asker, asks, asks_under_mutex, first_facts, open_asked};
use bench_times::print_mean_of_threads;
use rm_lock::Opened;
use state_journal::Book;
use std::alloc::Global;
use std::io::Print;
use std::sync::{Mutex, Wait};
use std::thread;
use std::thread::Threads;
use std::time::Clock;

/// Of so many sections that are timed without an ask one is timed with it: a journal keeps all its asks.
pub const SECTIONS_AN_ASK: u32 = 10;

/// Sections with an ask in each, through the lock's calls, and the same asks of a book in std's mutex.
pub fn print_asks<R: Threads + Wait + Clock + Print + Sync>(
    rt: &R,
    alloc: Global,
    threads: u32,
    rounds: u32,
) -> anyhow::Result<()>
    requires some { 0 < threads }
    requires few { threads ≤ 64 }
{
    let Opened {
        lock,
        processors,
        operator: _,
    } = open_asked(alloc, threads)?;
    let table = &lock;
    let times = thread::map_vec(
        rt,
        processors,
        &|asker: Asker| -> Option<u64>
            requires { asker.table_id ≡ table.now }
        { asks(rt, table, asker, rounds).ok() },
    )?;
    print_mean_of_threads(rt, "take_book, ask, give_book", times.as_slice(), rounds)?;
    let book = Mutex::new(Book::open(alloc, threads, first_facts(alloc)?)?);
    let times = thread::map_indices(
        rt,
        alloc,
        threads as usize,
        &|_| asks_under_mutex(rt, &book, rounds).ok(),
    )?;
    print_mean_of_threads(rt, "Mutex: lock, ask", times.as_slice(), rounds)
}
