use fw_command::{Pace, ScriptFault, parse_script};
use ipfw_parser::Kind;
use std::alloc::Global;
use std::test::Fail;

/// So many times these bytes.
fn repeated(alloc: Global, bytes: &[u8], times: usize) -> Result<Vec<u8>, Fail> {
    let mut text = Vec::new(alloc);
    for _ in 0..times {
        text.extend_from_slice(bytes)?;
    }
    Ok(text)
}

/// A comment that is the whole script, of so many bytes.
fn comment(alloc: Global, bytes: usize) -> Result<Option<ScriptFault>, Fail> {
    let mut script = repeated(alloc, b"#", 1)?;
    script.extend_from_slice(&repeated(alloc, b"x", bytes.saturating_sub(1))?)?;
    Ok(parse_script(alloc, &script, Pace::Serial).err())
}

/// So many empty lines and then these bytes.
fn lines_and(alloc: Global, lines: usize, last: &[u8]) -> Result<Option<ScriptFault>, Fail> {
    let mut script = repeated(alloc, b"\n", lines)?;
    script.extend_from_slice(last)?;
    Ok(parse_script(alloc, &script, Pace::Serial).err())
}

/// Two commands, `live`, so many listings with an `after` before each, and then these bytes.
fn live_and(alloc: Global, lists: usize, last: &[u8]) -> Result<Option<ScriptFault>, Fail> {
    let mut script = repeated(alloc, b"list\nflush\nlive\n", 1)?;
    script.extend_from_slice(&repeated(alloc, b"after 1\nlist\n", lists)?)?;
    script.extend_from_slice(last)?;
    Ok(parse_script(alloc, &script, Pace::Serial).err())
}

#[test]
fn most_bytes(rt: HostRuntime) -> Result<(), Fail> {
    assert_eq!(rt; comment(rt.alloc(), 1_048_576)?, None);
    assert_eq!(rt; comment(rt.alloc(), 1_048_577)?, Some(ScriptFault::TooLong));
    // Length is tested before lines, and both before what a line says.
    let fault = lines_and(rt.alloc(), 1_048_577, b"")?;
    assert_eq!(rt; fault, Some(ScriptFault::TooLong));
    let fault = lines_and(rt.alloc(), 1_048_576, b"")?;
    assert_eq!(rt; fault, Some(ScriptFault::TooManyLines));
    Ok(())
}

#[test]
fn most_lines(rt: HostRuntime) -> Result<(), Fail> {
    assert_eq!(rt; lines_and(rt.alloc(), 65_536, b"")?, None);
    assert_eq!(rt; lines_and(rt.alloc(), 65_535, b"list")?, None);
    let fault = lines_and(rt.alloc(), 65_536, b" ")?;
    assert_eq!(rt; fault, Some(ScriptFault::TooManyLines));
    let fault = lines_and(rt.alloc(), 65_537, b"")?;
    assert_eq!(rt; fault, Some(ScriptFault::TooManyLines));
    let (line, column, kind) = (65_536, 1, Kind::UnknownWord);
    let fault = lines_and(rt.alloc(), 65_535, b"lis")?;
    assert_eq!(rt; fault, Some(ScriptFault::Parse { line, column, kind }));
    Ok(())
}

#[test]
fn most_live_commands(rt: HostRuntime) -> Result<(), Fail> {
    assert_eq!(rt;
        live_and(rt.alloc(), 4096, b"after 5\n# list\nafter 0")?,
        None
    );
    let fault = live_and(rt.alloc(), 4096, b"list")?;
    assert_eq!(rt; fault, Some(ScriptFault::TooManyLive));
    let fault = live_and(rt.alloc(), 4096, b"\nafter 5\nflush\nlis")?;
    assert_eq!(rt; fault, Some(ScriptFault::TooManyLive));
    // A line's own fault comes before its being too many.
    let (line, column, kind) = (8196, 1, Kind::UnknownWord);
    let fault = live_and(rt.alloc(), 4096, b"lis")?;
    assert_eq!(rt; fault, Some(ScriptFault::Parse { line, column, kind }));
    Ok(())
}
