//! Times the asks of the dynamic states, with few live and with as many as there may be, and the entries of
//! their journal. Without a number of asks it says how it is used.
//!
//! Tests: none.
#![tactic(auto)]

use crate::asks::print_asks;
use crate::journal::print_journal;
use anyhow::Result;
use std::env;

mod asks;
mod flows;
mod journal;

fn main(rt: HostRuntime) -> Result<()> {
    let Some(word) = env::args(&rt)?.nth(1) else {
        println!(rt; "usage: states_bench ASKS")?;
        return Ok(());
    };
    let Ok(asks) = word.parse::<u32>() else {
        println!(rt; "usage: states_bench ASKS")?;
        return Ok(());
    };
    for live in [100, 10_000, 65_536] {
        print_asks(&rt, rt.alloc(), live, asks)?;
    }
    print_journal(&rt, rt.alloc(), asks)
}
