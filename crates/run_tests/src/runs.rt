use captures::{Packet, capture_of};
use fw_base::{FreeGate, Gate, Name};
use memory_files::{MemoryLibrary, MemorySink, MemorySource};
use replay_driver::run;
use replay_setup::Outcome;
use std::alloc::Global;
use std::process::Abort;
use std::sync::Wait;
use std::test::Fail;
use std::thread::Threads;

mod audits;
mod bodies;
mod caches;
mod captures;
mod cuts;
mod edits;
mod gates;
mod ipv6;
mod live;
mod loads;
mod rows;
mod scripts;
mod states;
mod twice;
mod words;

/// How much a sink takes unless a row says otherwise.
const ROOM: u64 = 1_048_576;

/// The words of a run over a script and one capture of incoming packets.
const SERIAL: &[&str] = &["serial", "s", "in:em0:c"];

/// The same in live mode.
const LIVE: &[&str] = &["live", "s", "in:em0:c"];

/// The words of both modes.
const MODES: [&[&str]; 2] = [SERIAL, LIVE];

/// The report of an empty script over one SYN.
const DENIED: &str =
    "1.1 deny 65535 at 1\nend 1 records 1\neditions 1\nrules 1\n65535 1 40 set 31 deny ip from any to any\nclock 0\nstates 0\n";

const A: [u8; 4] = [10, 0, 0, 1];

const B: [u8; 4] = [192, 0, 2, 1];

/// A SYN from A, port 1025, to B, port 80.
const T: Packet = Packet::Tcp((A, 1025), (B, 80), 2);

/// UDP from A, port 5, to B, port 6.
const U: Packet = Packet::Udp((A, 5), (B, 6));

/// A packet and the second of its record.
type Timed = (u32, Packet);

/// A worked row: the words behind `serial`, in which `s` is the script and `c`, `d` are the captures of these
/// packets; and the status and the whole text of its run.
#[derive(Clone, Copy)]
struct Row {
    name: &'static str,
    words: &'static [&'static str],
    script: &'static str,
    captures: &'static [&'static [Timed]],
    status: u8,
    text: &'static str,
}

/// What a run leaves.
#[derive(Drop)]
struct Seen {
    status: u8,
    text: Vec<u8>,
    sources: usize,
    records: usize,
}

/// These words, each as a text.
fn texts(alloc: Global, words: &[&str]) -> Result<Vec<String>, Fail> {
    let mut texts = Vec::new(alloc);
    for word in words {
        texts.push(String::from_str(alloc, word)?)?;
    }
    Ok(texts)
}

/// Adds a source of these bytes under a name.
fn add(
    alloc: Global,
    library: &mut MemoryLibrary,
    name: &[u8],
    bytes: &[u8],
    pieces: &[usize],
    cut: Option<u64>,
) -> Result<(), Fail> {
    let bytes = Vec::from_slice(alloc, bytes)?;
    let pieces = Vec::from_slice(alloc, pieces)?;
    library.add(
        Name::new(alloc, name)?,
        MemorySource::new(bytes, pieces, cut),
    )?;
    Ok(())
}

/// What a run left, with the text that it wrote.
fn seen_of<S: Drop>(alloc: Global, outcome: Outcome<S>, text: &[u8]) -> Result<Seen, Fail> {
    let mut records = 0usize;
    if let Some(kept) = &outcome.kept {
        for docket in kept.dockets() {
            records = records.saturating_add(docket.entries().len());
        }
    }
    Ok(Seen {
        status: outcome.status,
        text: Vec::from_slice(alloc, text)?,
        sources: outcome.sources.len(),
        records,
    })
}

/// Runs these words over a library, with a sink of that room.
fn run_over<R: Threads + Wait + Sync>(
    rt: &R,
    alloc: Global,
    words: &[&str],
    library: &mut MemoryLibrary,
    room: u64,
) -> Result<Seen, Fail> {
    let mut out = MemorySink::new(alloc, room)?;
    let words = texts(alloc, words)?;
    let outcome = run(rt, alloc, &words, library, &mut out, &FreeGate);
    seen_of(alloc, outcome, out.written())
}

/// Runs these words over a library beside a gate.
fn run_beside<R: Threads + Wait + Sync, G: Gate + Sync>(
    rt: &R,
    alloc: Global,
    words: &[&str],
    library: &mut MemoryLibrary,
    gate: &G,
) -> Result<Seen, Fail> {
    let mut out = MemorySink::new(alloc, ROOM)?;
    let words = texts(alloc, words)?;
    let outcome = run(rt, alloc, &words, library, &mut out, gate);
    seen_of(alloc, outcome, out.written())
}

/// A library with a script `s` and a capture `c`, which comes in these pieces and fails behind so many bytes.
fn library_of(
    alloc: Global,
    script: &[u8],
    capture: &[u8],
    pieces: &[usize],
    cut: Option<u64>,
) -> Result<MemoryLibrary, Fail> {
    let mut library = MemoryLibrary::new(alloc);
    add(alloc, &mut library, b"s", script, &[], None)?;
    add(alloc, &mut library, b"c", capture, pieces, cut)?;
    Ok(library)
}

/// Runs a script and a capture of incoming packets, which comes in these pieces.
fn replay<R: Threads + Wait + Sync>(
    rt: &R,
    alloc: Global,
    script: &[u8],
    capture: &[u8],
    pieces: &[usize],
) -> Result<Seen, Fail> {
    let mut library = library_of(alloc, script, capture, pieces, None)?;
    run_over(rt, alloc, SERIAL, &mut library, ROOM)
}

/// Compares what a run left with the status and the text that the row of that name wants.
fn assert_seen(rt: &impl Abort, seen: &Seen, name: &str, status: u8, text: &[u8]) {
    assert_eq!(rt; seen.text.as_slice(), text, "{name}");
    assert_eq!(rt; seen.status, status, "{name}");
}

/// Adds a capture of these packets under the name of its place.
fn add_capture(
    alloc: Global,
    library: &mut MemoryLibrary,
    place: usize,
    packets: &[Timed],
) -> Result<(), Fail> {
    let capture = capture_of(alloc, packets)?;
    let name: &[u8] = if place == 0 { b"c" } else { b"d" };
    add(alloc, library, name, &capture, &[], None)
}

/// A library with the script and the captures of the row.
fn library_of_row(alloc: Global, row: &Row) -> Result<MemoryLibrary, Fail> {
    let mut library = MemoryLibrary::new(alloc);
    add(alloc, &mut library, b"s", row.script.as_bytes(), &[], None)?;
    for (place, packets) in row.captures.iter().enumerate() {
        add_capture(alloc, &mut library, place, packets)?;
    }
    Ok(library)
}

/// Whether a live run of the row prints what a serial one does: it has one capture, and no live command.
fn prints_alike(row: &Row) -> bool {
    row.captures.len() == 1 && !row.script.contains("live\n")
}

/// Runs the row in live mode, and compares the status and the text.
fn check_live_row<R: Threads + Wait + Sync + Abort>(
    rt: &R,
    alloc: Global,
    row: &Row,
) -> Result<(), Fail> {
    let mut words = Vec::from_slice(alloc, row.words)?;
    if let Some(mode) = words.first_mut() {
        *mode = "live";
    }
    let mut library = library_of_row(alloc, row)?;
    let seen = run_over(rt, alloc, &words, &mut library, ROOM)?;
    assert_seen(rt, &seen, row.name, row.status, row.text.as_bytes());
    Ok(())
}

/// Runs the row, and compares the status and the text; where a live run prints alike, so in that mode.
fn check_row<R: Threads + Wait + Sync + Abort>(
    rt: &R,
    alloc: Global,
    row: &Row,
) -> Result<(), Fail> {
    let mut library = library_of_row(alloc, row)?;
    let seen = run_over(rt, alloc, row.words, &mut library, ROOM)?;
    assert_seen(rt, &seen, row.name, row.status, row.text.as_bytes());
    if prints_alike(row) {
        check_live_row(rt, alloc, row)?;
    }
    Ok(())
}

/// Runs each row, and compares the status and the text.
fn check<R: Threads + Wait + Sync + Abort>(
    rt: &R,
    alloc: Global,
    rows: &[Row],
) -> Result<(), Fail> {
    for row in rows {
        check_row(rt, alloc, row)?;
    }
    Ok(())
}
