use super::captures::syns;
use super::edits::{SET_SWAP, SKIPTO_OWN};
use super::states::WORKSTATION;
use super::{
    DENIED, ROOM, Row, T, Timed, U, assert_seen, check, library_of, library_of_row, run_over,
};
use std::alloc::Global;
use std::process::Abort;
use std::sync::Wait;
use std::test::Fail;
use std::thread::Threads;

/// Three SYNs of one flow, with a packet of another flow before the last of them.
const TWO_KEYS: &[Timed] = &[(100, T), (101, T), (102, U), (103, T)];

/// With room for one verdict the packet of the other flow takes it from the first; with room for two it doesn't.
const ROWS: [Row; 2] = [
    Row {
        name: "cache_of_one",
        words: &["serial", "--cache", "1", "s", "in:em0:c"],
        script: "add 100 allow tcp from any to any\n",
        captures: &[TWO_KEYS],
        status: 0,
        text: "1.1 allow 00100 at 1\n1.2 allow 00100 at 1\n1.3 deny 65535 at 1\n1.4 allow 00100 at 1\nend 1 records 4\neditions 1\nrules 2\n00100 3 120 allow tcp from any to any\n65535 1 28 set 31 deny ip from any to any\nclock 0\nstates 0\ncache 1 hits 1\n",
    },
    Row {
        name: "cache_of_two",
        words: &["serial", "--cache=2", "s", "in:em0:c"],
        script: "add 100 allow tcp from any to any\n",
        captures: &[TWO_KEYS],
        status: 0,
        text: "1.1 allow 00100 at 1\n1.2 allow 00100 at 1\n1.3 deny 65535 at 1\n1.4 allow 00100 at 1\nend 1 records 4\neditions 1\nrules 2\n00100 3 120 allow tcp from any to any\n65535 1 28 set 31 deny ip from any to any\nclock 0\nstates 0\ncache 1 hits 2\n",
    },
];

/// Rows of a full cache.
#[test]
fn caches_of_one_and_two(rt: HostRuntime) -> Result<(), Fail> {
    check(&rt, rt.alloc(), &ROWS)
}

/// This text, and then these lines.
fn with_lines(alloc: Global, text: &str, lines: &str) -> Result<Vec<u8>, Fail> {
    let mut all = Vec::from_slice(alloc, text.as_bytes())?;
    all.extend_from_slice(lines.as_bytes())?;
    Ok(all)
}

/// Runs a row with these words, and compares the status and the text, behind which these lines come.
fn check_cached<R: Threads + Wait + Sync + Abort>(
    rt: &R,
    alloc: Global,
    row: &Row,
    words: &[&str],
    lines: &str,
) -> Result<(), Fail> {
    let mut library = library_of_row(alloc, row)?;
    let seen = run_over(rt, alloc, words, &mut library, ROOM)?;
    let text = with_lines(alloc, row.text, lines)?;
    assert_seen(rt, &seen, row.name, row.status, &text);
    Ok(())
}

/// With a cache a row prints what it prints without one, and the lines of the caches. In the sets that change their
/// numbers three of five packets are hits; no verdict is kept where a rule counts, skips or asks for a state.
#[test]
fn the_same_with_a_cache(rt: HostRuntime) -> Result<(), Fail> {
    let alloc = rt.alloc();
    let one = ["serial", "--cache", "4", "s", "in:em0:c"];
    check_cached(&rt, alloc, &SET_SWAP, &one, "cache 1 hits 3\n")?;
    check_cached(&rt, alloc, &SKIPTO_OWN, &one, "cache 1 hits 0\n")?;
    let two = ["serial", "--cache", "4", "s", "out:em0:c", "in:em0:d"];
    check_cached(
        &rt,
        alloc,
        &WORKSTATION,
        &two,
        "cache 1 hits 0\ncache 2 hits 0\n",
    )
}

/// Words that ask for a cache.
const COMMANDS: [&[&str]; 5] = [
    &["serial", "--cache", "00005", "s", "in:em0:c"],
    &["serial", "s", "in:em0:c", "--cache", "65536"],
    &["serial", "s", "--cache=1", "in:em0:c"],
    &["serial", "--cache=1", "--", "s", "in:em0:c"],
    &["serial", "s", "--cache", "1", "--", "in:em0:c"],
];

fn check_command<R: Threads + Wait + Sync + Abort>(
    rt: &R,
    alloc: Global,
    words: &[&str],
) -> Result<(), Fail> {
    let capture = syns(alloc, 1)?;
    let mut library = library_of(alloc, b"", &capture, &[], None)?;
    let seen = run_over(rt, alloc, words, &mut library, ROOM)?;
    let text = with_lines(alloc, DENIED, "cache 1 hits 0\n")?;
    let row = format!(in alloc; "a cache: {words:?}")?;
    assert_seen(rt, &seen, &row, 0, &text);
    Ok(())
}

/// The option may stand before, among or behind the other words, with up to five digits.
#[test]
fn words_of_a_cache(rt: HostRuntime) -> Result<(), Fail> {
    for words in COMMANDS {
        check_command(&rt, rt.alloc(), words)?;
    }
    Ok(())
}
