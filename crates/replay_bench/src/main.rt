//! Times the serial and the live replay of four captures in memory, without their reports: with rules that ask the
//! states nothing, and with states. Without a number of records it says how it is used.
//!
//! Tests: none.
#![tactic(auto)]

use crate::replays::{print_live, print_serial};
use anyhow::Result;
use fw_base::MOST_LOAD_RECORDS;
use std::env;

mod captures;
mod replays;

/// Rules that ask the states nothing.
const SILENT: &str = "add 100 deny icmp from any to any\nadd 200 allow ip from 10.0.0.0/8 to any\n";

/// Rules by which each packet with a flow asks the states.
const ASKING: &str = "add 100 check-state\nadd 200 allow ip from any to any keep-state\n";

fn main(rt: HostRuntime) -> Result<()> {
    let Some(word) = env::args(&rt)?.nth(1) else {
        println!(rt; "usage: replay_bench RECORDS")?;
        return Ok(());
    };
    let Ok(records) = word.parse::<u32>() else {
        println!(rt; "usage: replay_bench RECORDS")?;
        return Ok(());
    };
    if records < 1 || records > MOST_LOAD_RECORDS {
        println!(rt; "usage: replay_bench RECORDS")?;
        return Ok(());
    }
    let alloc = rt.alloc();
    for (name, rules) in [("no ask", SILENT), ("states", ASKING)] {
        println!(rt; "4 captures of {records} records, {name}")?;
        print_serial(&rt, alloc, rules, records)?;
        print_live(&rt, alloc, rules, records)?;
    }
    Ok(())
}
