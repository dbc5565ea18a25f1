use crate::flows::settings;
use anyhow::{Result, bail};
use bench_asks::lookup;
use bench_times::{nanoseconds, print_mean};
use fw_base::OutOfMemory;
use state_asks::{Facts, FlowName, Identities, is_ordered};
use state_journal::{Book, Entry};
use std::alloc::Global;
use std::io::Print;
use std::mem::size_of;
use std::time::{Clock, Instant};

/// Enters an ask of the first lane, if there is one.
fn enter(book: &mut Book, record: u32) -> Result<(), OutOfMemory> {
    if 1 <= book.lanes() {
        book.ask(
            1,
            u64::from(record),
            &lookup(record % 1000, record, FlowName::Named(0)),
        )?;
    }
    Ok(())
}

/// Prints what an entry of the journal costs, where so many are made.
pub fn print_journal<R: Clock + Print>(rt: &R, alloc: Global, asks: u32) -> Result<()> {
    let rules = vec![in alloc; 0, 1]?;
    if !is_ordered(&rules) {
        bail!("the rules don't ascend");
    }
    let facts = Facts {
        number: 1,
        rules: Identities::new(alloc, rules)?,
        settings: settings(10),
    };
    let mut book = Book::open(alloc, 1, facts)?;
    let start = Instant::now(rt)?;
    for record in 0..asks {
        enter(&mut book, record)?;
    }
    let time = nanoseconds(rt, start)?;
    let bytes = size_of::<Entry>();
    println!(rt;
        "a journal of {} entries, {bytes} bytes each",
        book.entries().len()
    )?;
    print_mean(rt, "an ask with its entry", time, asks)
}
