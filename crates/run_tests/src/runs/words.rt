use super::captures::syns;
use super::{DENIED, ROOM, add, assert_seen, library_of, run_over};
use fw_base::Name;
use memory_files::MemoryLibrary;
use std::alloc::Global;
use std::process::Abort;
use std::sync::Wait;
use std::test::Fail;
use std::thread::Threads;

const USAGE: &[u8] =
    b"usage: ipfw_replay serial|live [--journal] SCRIPT in|out:IF:CAPTURE .. | load N\n";

/// Words that are no command.
const NO_COMMANDS: [&[&str]; 24] = [
    &[],
    &["serial"],
    &["serial", "s"],
    &["serial", "", "in:em0:c"],
    &["serial", "s", "in:abcdefghijklmnop:c"],
    &["serial", "s", "at:em0:c"],
    &["--help"],
    &["serial", "-h"],
    &["help"],
    &["serial", "s", "in:em0:c", "--journal=x"],
    &["serial", "--journal", "s", "in:em0:c", "--journal"],
    &["load"],
    &["load", "0"],
    &["load", "1000001"],
    &["load", "--journal", "1"],
    &["load", "--cache", "4", "1"],
    &["serial", "--cache", "0", "s", "in:em0:c"],
    &["serial", "--cache=65537", "s", "in:em0:c"],
    &["serial", "--cache=000005", "s", "in:em0:c"],
    &["serial", "--cache", "--", "s", "in:em0:c"],
    &["serial", "s", "in:em0:c", "--cache"],
    &["serial", "--cache", "--journal", "s", "in:em0:c"],
    &["serial", "--cache", "4", "--cache=4", "s", "in:em0:c"],
    &[
        "serial", "s", "in:e:c", "in:e:c", "in:e:c", "in:e:c", "in:e:c", "in:e:c", "in:e:c",
        "in:e:c", "in:e:c", "in:e:c", "in:e:c", "in:e:c", "in:e:c", "in:e:c", "in:e:c", "in:e:c",
        "in:e:c",
    ],
];

fn check_usage<R: Threads + Wait + Sync + Abort>(
    rt: &R,
    alloc: Global,
    words: &[&str],
) -> Result<(), Fail> {
    let mut library = MemoryLibrary::new(alloc);
    let seen = run_over(rt, alloc, words, &mut library, ROOM)?;
    let row = format!(in alloc; "no command: {words:?}")?;
    assert_seen(rt, &seen, &row, 1, USAGE);
    assert_eq!(rt; seen.sources, 0, "{row}");
    Ok(())
}

#[test]
fn missing_capture_is_usage(rt: HostRuntime) -> Result<(), Fail> {
    for words in NO_COMMANDS {
        check_usage(&rt, rt.alloc(), words)?;
    }
    Ok(())
}

/// Words that are a command.
const COMMANDS: [&[&str]; 8] = [
    &["serial", "s", "in:em0:c"],
    &["live", "s", "in:em0:c"],
    &["serial", "s", "out:abc.def-ghi_jkl:c"],
    &["serial", "-", "in:em0:c"],
    &["serial", "s", "in:em0:c:d"],
    &["serial", "--", "s", "in:em0:c"],
    &["serial", "s", "--", "in:em0:c"],
    &["serial", "--", "--help", "in:em0:c"],
];

/// A library with an empty script and a capture of one SYN under each name that the words have.
fn library_of_names(alloc: Global) -> Result<MemoryLibrary, Fail> {
    let mut library = MemoryLibrary::new(alloc);
    for name in [b"s".as_slice(), b"-", b"--help"] {
        add(alloc, &mut library, name, b"", &[], None)?;
    }
    for name in [b"c".as_slice(), b"c:d".as_slice()] {
        add(alloc, &mut library, name, &syns(alloc, 1)?, &[], None)?;
    }
    Ok(library)
}

fn check_command<R: Threads + Wait + Sync + Abort>(
    rt: &R,
    alloc: Global,
    words: &[&str],
) -> Result<(), Fail> {
    let mut library = library_of_names(alloc)?;
    let seen = run_over(rt, alloc, words, &mut library, ROOM)?;
    let row = format!(in alloc; "a command: {words:?}")?;
    assert_seen(rt, &seen, &row, 0, DENIED.as_bytes());
    Ok(())
}

#[test]
fn words_that_are_a_command(rt: HostRuntime) -> Result<(), Fail> {
    for words in COMMANDS {
        check_command(&rt, rt.alloc(), words)?;
    }
    Ok(())
}

/// A library with an empty script, and the same capture of no records sixteen times.
fn library_of_sixteen(alloc: Global) -> Result<MemoryLibrary, Fail> {
    let mut library = MemoryLibrary::new(alloc);
    add(alloc, &mut library, b"s", b"", &[], None)?;
    for _ in 0..16 {
        add(alloc, &mut library, b"c", &syns(alloc, 0)?, &[], None)?;
    }
    Ok(library)
}

/// The same name sixteen times takes sixteen sources.
#[test]
fn sixteen_captures(rt: HostRuntime) -> Result<(), Fail> {
    let alloc = rt.alloc();
    let words = [
        "serial", "s", "in:e:c", "in:e:c", "in:e:c", "in:e:c", "in:e:c", "in:e:c", "in:e:c",
        "in:e:c", "in:e:c", "in:e:c", "in:e:c", "in:e:c", "in:e:c", "in:e:c", "in:e:c", "in:e:c",
    ];
    let whole =
        b"end 1 records 0\nend 2 records 0\nend 3 records 0\nend 4 records 0\nend 5 records 0\nend 6 records 0\nend 7 records 0\nend 8 records 0\nend 9 records 0\nend 10 records 0\nend 11 records 0\nend 12 records 0\nend 13 records 0\nend 14 records 0\nend 15 records 0\nend 16 records 0\neditions 1\nrules 1\n65535 0 0 set 31 deny ip from any to any\nclock 0\nstates 0\n";
    let mut library = library_of_sixteen(alloc)?;
    let seen = run_over(&rt, alloc, &words, &mut library, ROOM)?;
    assert_seen(&rt, &seen, "sixteen_captures", 0, whole);
    assert_eq!(rt; seen.sources, 17);
    Ok(())
}

/// A name that is refused, the text that tells it, and how many sources were opened before it.
const REFUSALS: [(&[u8], &[u8], usize); 3] = [
    (b"s", b"cannot read s\n", 0),
    (b"c", b"cannot read c\n", 1),
    (b"d", b"cannot read d\n", 2),
];

const TWO_CAPTURES: [&str; 4] = ["serial", "s", "in:em0:c", "in:em0:d"];

/// A library with a script and two captures, of which it refuses one name.
fn library_without(alloc: Global, name: &[u8]) -> Result<MemoryLibrary, Fail> {
    let mut library = library_of(alloc, b"", &syns(alloc, 1)?, &[], None)?;
    add(alloc, &mut library, b"d", &syns(alloc, 1)?, &[], None)?;
    library.refuse(Name::new(alloc, name)?)?;
    Ok(library)
}

fn check_refusal<R: Threads + Wait + Sync + Abort>(
    rt: &R,
    alloc: Global,
    name: &[u8],
    text: &[u8],
    sources: usize,
) -> Result<(), Fail> {
    let mut library = library_without(alloc, name)?;
    let seen = run_over(rt, alloc, &TWO_CAPTURES, &mut library, ROOM)?;
    let row = format!(in alloc; "a refused name: {name:?}")?;
    assert_seen(rt, &seen, &row, 4, text);
    assert_eq!(rt; seen.sources, sources, "{row}");
    Ok(())
}

/// Runs a script whose source fails behind so many of its bytes.
fn check_broken_script<R: Threads + Wait + Sync + Abort>(
    rt: &R,
    alloc: Global,
    cut: u64,
) -> Result<(), Fail> {
    let mut library = MemoryLibrary::new(alloc);
    let script = b"add 100 allow ip from any to any\n";
    add(alloc, &mut library, b"s", script, &[7], Some(cut))?;
    add(alloc, &mut library, b"c", &syns(alloc, 1)?, &[], None)?;
    let seen = run_over(rt, alloc, &TWO_CAPTURES, &mut library, ROOM)?;
    let row = format!(in alloc; "a script that fails behind {cut} bytes")?;
    assert_seen(rt, &seen, &row, 4, b"cannot read s\n");
    assert_eq!(rt; seen.sources, 1, "{row}");
    Ok(())
}

/// Each name refused, and a script whose source fails.
#[test]
fn refused_names(rt: HostRuntime) -> Result<(), Fail> {
    for (name, text, sources) in REFUSALS {
        check_refusal(&rt, rt.alloc(), name, text, sources)?;
    }
    for cut in [0, 1, 33] {
        check_broken_script(&rt, rt.alloc(), cut)?;
    }
    Ok(())
}
