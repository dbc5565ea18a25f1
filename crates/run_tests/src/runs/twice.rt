use super::captures::capture_of;
use super::{ROOM, SERIAL, Seen, T, U, add, assert_seen, library_of, seen_of, texts};
use fw_base::FreeGate;
use memory_files::{MemoryLibrary, MemorySink};
use run_laws::laws::runs_are_determined;
use run_laws::two_runs::run_both;
use std::alloc::Global;
use std::sync::Wait;
use std::test::Fail;
use std::thread::Threads;

/// Runs these words over two libraries.
fn run_over_both<R: Threads + Wait + Sync>(
    rt: &R,
    alloc: Global,
    words: &[&str],
    library: &mut MemoryLibrary,
    other: &mut MemoryLibrary,
) -> Result<(Seen, Seen), Fail> {
    let mut out = MemorySink::new(alloc, ROOM)?;
    let mut other_out = MemorySink::new(alloc, ROOM)?;
    let words = texts(alloc, words)?;
    let (first, second) = run_both(
        rt,
        alloc,
        &words,
        library,
        &mut out,
        other,
        &mut other_out,
        &FreeGate,
    );
    let first = seen_of(alloc, first, out.written())?;
    let second = seen_of(alloc, second, other_out.written())?;
    Ok((first, second))
}

/// A library with the script and the capture in another order, in small pieces, beside a file more.
fn turned_library(alloc: Global, script: &[u8], capture: &[u8]) -> Result<MemoryLibrary, Fail> {
    let mut library = MemoryLibrary::new(alloc);
    add(alloc, &mut library, b"c", capture, &[1, 7, 30], None)?;
    add(alloc, &mut library, b"d", b"", &[], None)?;
    add(alloc, &mut library, b"s", script, &[2], None)?;
    Ok(library)
}

#[test]
fn two_libraries_of_the_same_files(rt: HostRuntime) -> Result<(), Fail> {
    let alloc = rt.alloc();
    let script = b"add allow tcp from any to any\nlive\nafter 1\nadd deny ip from any to any\n";
    let capture = capture_of(alloc, &[(0, T), (1, U)])?;
    let mut library = library_of(alloc, script, &capture, &[], None)?;
    let mut other = turned_library(alloc, script, &capture)?;
    let (first, second) = run_over_both(&rt, alloc, SERIAL, &mut library, &mut other)?;
    let text =
        b"1.1 allow 00100 at 1\n1.2 deny 00200 at 2\nend 1 records 2\neditions 2\nrules 3\n00100 1 40 allow tcp from any to any\n00200 1 28 deny ip from any to any\n65535 0 0 set 31 deny ip from any to any\nclock 0\nstates 0\n";
    assert_seen(&rt, &first, "the first library", 0, text);
    assert_seen(&rt, &second, "the second library", 0, text);
    assert_eq!(rt; first.records, second.records);
    Ok(())
}

/// The law, at libraries and sinks over memory.
#[test]
fn law_of_runs() {
    runs_are_determined::<MemoryLibrary, MemorySink, MemoryLibrary, MemorySink>();
}
