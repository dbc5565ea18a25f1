//! Times the report: a line for each record and one for each entry of the journal, beside the same bytes
//! written as many at once. Without a number of lines it says how it is used.
//!
//! Tests: none.
#![tactic(auto)]

use crate::reports::print_reports;
use anyhow::Result;
use std::env;

mod reports;
mod run;

fn main(rt: HostRuntime) -> Result<()> {
    let Some(word) = env::args(&rt)?.nth(1) else {
        println!(rt; "usage: report_bench LINES")?;
        return Ok(());
    };
    let Ok(lines) = word.parse::<u32>() else {
        println!(rt; "usage: report_bench LINES")?;
        return Ok(());
    };
    print_reports(&rt, rt.alloc(), lines)
}
