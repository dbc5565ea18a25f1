//! Times sections of the shared world in which a packet is judged: with no ask of the states, with one ask each,
//! and beside an operator that publishes; in one thread, in two and in four. Without a number of sections it says
//! how it is used.
//!
//! Tests: none.
#![tactic(auto)]

use crate::sections::print_sections;
use crate::traffic::Traffic;
use anyhow::Result;
use std::{env, thread};

mod lanes;
mod publisher;
mod sections;
mod traffic;

fn main(rt: HostRuntime) -> Result<()> {
    let Some(word) = env::args(&rt)?.nth(1) else {
        println!(rt; "usage: world_bench SECTIONS")?;
        return Ok(());
    };
    let Ok(sections) = word.parse::<u32>() else {
        println!(rt; "usage: world_bench SECTIONS")?;
        return Ok(());
    };
    let cores = thread::available_parallelism(&rt)?.get();
    for threads in [1, 2, 4] {
        if threads as usize <= cores {
            for traffic in [Traffic::Silent, Traffic::Asking] {
                print_sections(&rt, rt.alloc(), threads, sections, traffic)?;
            }
        }
    }
    Ok(())
}
