//! Makes 4,096 edits of a configuration of 30,000 rules and 36,000 entries of a table, keeps what each of them
//! made, and times them; `bench/run` measures the memory. Without a kind of edit it says how it is used.
//!
//! Tests: none.
#![tactic(auto)]

use crate::configurations::{edited, first_configuration};
use crate::kind::EditKind;
use anyhow::Result;
use bench_times::{milliseconds, nanoseconds};
use std::env;
use std::time::Instant;

mod configurations;
mod kind;
mod scripts;

fn main(rt: HostRuntime) -> Result<()> {
    let Some(kind) = env::args(&rt)?.nth(1).and_then(|word| EditKind::of(&word)) else {
        println!(rt; "usage: edit_bench settings|sets|table")?;
        return Ok(());
    };
    let alloc = rt.alloc();
    let first = first_configuration(alloc)?;
    let (rules, start) = (first.rules().len(), Instant::now(&rt)?);
    let kept = edited(alloc, first, kind)?;
    let time = milliseconds(nanoseconds(&rt, start)?);
    println!(rt;
        "{} configurations kept, {rules} rules each, edited in {time} ms",
        kept.len()
    )?;
    Ok(())
}
