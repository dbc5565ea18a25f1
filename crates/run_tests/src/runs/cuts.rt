use super::captures::syns;
use super::{LIVE, ROOM, SERIAL, assert_seen, library_of, run_over};
use std::alloc::Global;
use std::process::Abort;
use std::sync::Wait;
use std::test::Fail;
use std::thread::Threads;

/// The lines of a capture of two SYNs that is cut after so many bytes, before the line of its end.
fn verdicts(bytes: usize) -> &'static [u8] {
    if bytes < 94 {
        b""
    } else if bytes < 164 {
        b"1.1 deny 65535 at 1\n"
    } else {
        b"1.1 deny 65535 at 1\n1.2 deny 65535 at 1\n"
    }
}

/// The line of the end of that capture, where it is truncated there.
fn truncated_end(bytes: usize) -> (&'static [u8], u8) {
    match bytes {
        0..24 => (b"fault 1 record 0 ShortHeader\n", 3),
        24 => (b"end 1 records 0\n", 0),
        25..40 => (b"fault 1 record 1 ShortRecordHeader\n", 3),
        40..94 => (b"fault 1 record 1 ShortRecord\n", 3),
        94 => (b"end 1 records 1\n", 0),
        95..110 => (b"fault 1 record 2 ShortRecordHeader\n", 3),
        110..164 => (b"fault 1 record 2 ShortRecord\n", 3),
        _ => (b"end 1 records 2\n", 0),
    }
}

/// The line of the end of that capture, where its source fails there.
fn failed_end(bytes: usize) -> &'static [u8] {
    match bytes {
        0..24 => b"fault 1 record 0 ReadFault\n",
        24..94 => b"fault 1 record 1 ReadFault\n",
        94..164 => b"fault 1 record 2 ReadFault\n",
        _ => b"fault 1 record 3 ReadFault\n",
    }
}

/// What a report has behind the lines of its captures, where rule 65535 denied so many SYNs.
fn behind(alloc: Global, denied: usize) -> Result<String, Fail> {
    let bytes = denied.saturating_mul(40);
    Ok(format!(in alloc;
        "editions 1\nrules 1\n65535 {denied} {bytes} set 31 deny ip from any to any\nclock 0\nstates 0\n"
    )?)
}

/// The report of a capture of two SYNs that ends so after so many bytes.
fn report_of(alloc: Global, bytes: usize, end: &[u8]) -> Result<Vec<u8>, Fail> {
    let denied = match bytes {
        0..94 => 0,
        94..164 => 1,
        _ => 2,
    };
    let mut text = Vec::from_slice(alloc, verdicts(bytes))?;
    text.extend_from_slice(end)?;
    text.extend_from_slice(behind(alloc, denied)?.as_bytes())?;
    Ok(text)
}

/// Runs an empty script over that capture, truncated after so many bytes.
fn check_truncated<R: Threads + Wait + Sync + Abort>(
    rt: &R,
    alloc: Global,
    words: &[&str],
    capture: &[u8],
    bytes: usize,
) -> Result<(), Fail> {
    let (end, status) = truncated_end(bytes);
    let text = report_of(alloc, bytes, end)?;
    let front = &capture[..bytes.min(capture.len())];
    let mut library = library_of(alloc, b"", front, &[], None)?;
    let seen = run_over(rt, alloc, words, &mut library, ROOM)?;
    let row = format!(in alloc; "a capture truncated after {bytes} bytes: {words:?}")?;
    assert_seen(rt, &seen, &row, status, &text);
    Ok(())
}

fn check_each_truncated<R: Threads + Wait + Sync + Abort>(
    rt: &R,
    alloc: Global,
    words: &[&str],
) -> Result<(), Fail> {
    let capture = syns(alloc, 2)?;
    for bytes in 0..=capture.len() {
        check_truncated(rt, alloc, words, &capture, bytes)?;
    }
    Ok(())
}

#[test]
fn capture_truncated_at_each_byte(rt: HostRuntime) -> Result<(), Fail> {
    check_each_truncated(&rt, rt.alloc(), SERIAL)
}

#[test]
fn capture_truncated_at_each_byte_in_live_mode(rt: HostRuntime) -> Result<(), Fail> {
    check_each_truncated(&rt, rt.alloc(), LIVE)
}

/// Runs an empty script over that capture, whose source fails after so many bytes.
fn check_failing_source<R: Threads + Wait + Sync + Abort>(
    rt: &R,
    alloc: Global,
    words: &[&str],
    capture: &[u8],
    bytes: usize,
) -> Result<(), Fail> {
    let text = report_of(alloc, bytes, failed_end(bytes))?;
    let mut library = library_of(alloc, b"", capture, &[], Some(bytes as u64))?;
    let seen = run_over(rt, alloc, words, &mut library, ROOM)?;
    let row = format!(in alloc; "a source that fails behind {bytes} bytes: {words:?}")?;
    assert_seen(rt, &seen, &row, 4, &text);
    Ok(())
}

fn check_each_failing<R: Threads + Wait + Sync + Abort>(
    rt: &R,
    alloc: Global,
    words: &[&str],
) -> Result<(), Fail> {
    let capture = syns(alloc, 2)?;
    for bytes in 0..=capture.len() {
        check_failing_source(rt, alloc, words, &capture, bytes)?;
    }
    Ok(())
}

#[test]
fn sources_that_fail_at_each_byte(rt: HostRuntime) -> Result<(), Fail> {
    check_each_failing(&rt, rt.alloc(), SERIAL)
}

#[test]
fn sources_that_fail_at_each_byte_in_live_mode(rt: HostRuntime) -> Result<(), Fail> {
    check_each_failing(&rt, rt.alloc(), LIVE)
}

/// Runs an empty script over that capture, with a sink of this room for the text.
fn check_room<R: Threads + Wait + Sync + Abort>(
    rt: &R,
    alloc: Global,
    words: &[&str],
    capture: &[u8],
    text: &[u8],
    room: usize,
) -> Result<(), Fail> {
    let status = if room < text.len() { 5 } else { 0 };
    let front = &text[..room.min(text.len())];
    let mut library = library_of(alloc, b"", capture, &[], None)?;
    let seen = run_over(rt, alloc, words, &mut library, room as u64)?;
    let row = format!(in alloc; "a sink of room {room}: {words:?}")?;
    assert_seen(rt, &seen, &row, status, front);
    Ok(())
}

fn check_each_room<R: Threads + Wait + Sync + Abort>(
    rt: &R,
    alloc: Global,
    words: &[&str],
) -> Result<(), Fail> {
    let capture = syns(alloc, 2)?;
    let text = report_of(alloc, capture.len(), b"end 1 records 2\n")?;
    for room in 0..=text.len() {
        check_room(rt, alloc, words, &capture, &text, room)?;
    }
    Ok(())
}

#[test]
fn sinks_of_each_room(rt: HostRuntime) -> Result<(), Fail> {
    check_each_room(&rt, rt.alloc(), SERIAL)
}

#[test]
fn sinks_of_each_room_in_live_mode(rt: HostRuntime) -> Result<(), Fail> {
    check_each_room(&rt, rt.alloc(), LIVE)
}
