//! Times a section of the lock through its calls, alone, beside an operator that publishes, and with an ask of
//! the states' book, and a section of the lock's table, on words alone, with its edition, and with an entry in
//! the book; in one thread, in two and in as many as there are cores; beside two stores and a load on words of
//! one's own, beside std's locks and counted pointer, and beside the states' book in std's mutex. Without a
//! number of sections it says how it is used.
//!
//! Tests: none.
#![tactic(auto)]

use crate::timing::print_times;
use anyhow::Result;
use std::{env, thread};

mod ask;
mod ask_times;
mod asker;
mod book;
mod boxed_book;
mod call_times;
mod edition;
mod facts_edition;
mod own_words;
mod publisher;
mod reader;
mod shared;
mod timing;
mod worker;

fn main(rt: HostRuntime) -> Result<()> {
    let Some(word) = env::args(&rt)?.nth(1) else {
        println!(rt; "usage: lock_bench SECTIONS")?;
        return Ok(());
    };
    let Ok(sections) = word.parse::<u32>() else {
        println!(rt; "usage: lock_bench SECTIONS")?;
        return Ok(());
    };
    let cores = thread::available_parallelism(&rt)?.get().min(64) as u32;
    print_times(&rt, rt.alloc(), 1, sections)?;
    if cores > 2 {
        print_times(&rt, rt.alloc(), 2, sections)?;
    }
    if cores > 1 {
        print_times(&rt, rt.alloc(), cores, sections)?;
    }
    Ok(())
}
