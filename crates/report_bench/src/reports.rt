use crate::run::{Run, run_of};
use anyhow::{Result, bail};
use bench_times::{nanoseconds, print_mean};
use fw_base::write_text;
use fw_report::write_report;
use memory_files::MemorySink;
use report_texts::Recorded;
use std::alloc::Global;
use std::io::Print;
use std::time::{Clock, Instant};

/// More than a line of a record or of an ask takes, in bytes.
const MOST_LINE_BYTES: u64 = 128;

/// Writes the run's report into the sink. Answers the nanoseconds.
fn time_report<R: Clock>(rt: &R, run: &Run, journal: bool, out: &mut MemorySink) -> Result<u64> {
    if run.editions.is_empty() {
        bail!("there is no edition");
    }
    let recorded = Recorded {
        editions: &run.editions,
        book: &run.book,
        dockets: &run.dockets,
        tallies: &run.tallies,
        trackers: &[0],
        hits: &[],
    };
    let start = Instant::now(rt)?;
    let written = write_report(&recorded, &run.ends, journal, out);
    let time = nanoseconds(rt, start)?;
    if written.is_err() {
        bail!("the report doesn't fit");
    }
    Ok(time)
}

/// Writes the text into a sink in pieces of so many bytes. Answers the nanoseconds.
fn time_pieces<R: Clock>(rt: &R, text: &[u8], bytes: usize, out: &mut MemorySink) -> Result<u64> {
    let start = Instant::now(rt)?;
    for piece in text.chunks(bytes.max(1)) {
        if write_text(out, piece).is_err() {
            bail!("the text doesn't fit");
        }
    }
    Ok(nanoseconds(rt, start)?)
}

/// Prints what a line of this run's report costs, beside the same bytes written in pieces of a line's length.
fn print_report<R: Clock + Print>(
    rt: &R,
    alloc: Global,
    name: &str,
    run: &Run,
    lines: u32,
) -> Result<()> {
    let room = u64::from(lines)
        .saturating_add(100)
        .saturating_mul(MOST_LINE_BYTES);
    let mut out = MemorySink::new(alloc, room)?;
    let report = time_report(rt, run, true, &mut out)?;
    let text = out.written();
    let mut copy = MemorySink::new(alloc, room)?;
    let bytes = text.len() / (lines.max(1) as usize);
    let pieces = time_pieces(rt, text, bytes, &mut copy)?;
    println!(rt; "a report of {lines} {name}, {} bytes", text.len())?;
    print_mean(rt, "a line", report, lines)?;
    print_mean(
        rt,
        "the same bytes, copied in pieces of a line",
        pieces,
        lines,
    )
}

/// Prints what a line of a record costs, and one of an ask in the journal, where there are so many.
pub fn print_reports<R: Clock + Print>(rt: &R, alloc: Global, lines: u32) -> Result<()> {
    print_report(rt, alloc, "records", &run_of(alloc, lines, 0)?, lines)?;
    print_report(rt, alloc, "asks", &run_of(alloc, 0, lines)?, lines)
}
