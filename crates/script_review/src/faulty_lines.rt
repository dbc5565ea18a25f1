ghost use Rattle.std.specs.Prelude.{◌<◌, IfSome, length};

use fw_base::OutOfMemory;
use fw_command::{Pace, ScriptFault, parse_script};
use ipfw_parser::Kind;
use std::alloc::Global;

/// The fault of a line.
#[derive(Clone, Copy)]
pub struct LineFault<'a> {
    /// The line's number, from 1.
    pub line: u32,
    /// The line, without its end.
    pub text: &'a [u8],
    /// Where the faulty word begins, from 1.
    pub column: u32,
    pub kind: Kind,
}

/// What a line says by itself.
enum Said {
    Command,
    /// It begins the live commands.
    Live,
    Fault { column: u32, kind: Kind },
}

fn line_end(text: &[u8]) -> Option<usize>
    ensures { IfSome result (λ at. at < length text.now) }
{
    text.iter().position(|byte| *byte == b'\n')
}

/// The first line without its end, and the text behind it; `None` where the text is empty.
pub(crate) fn first_line(text: &[u8]) -> Option<(&[u8], &[u8])> {
    if text.is_empty() {
        return None;
    }
    match line_end(text) {
        Some(at) => Some((&text[..at], &text[at + 1..])),
        None => Some((text, b"")),
    }
}

/// What a line says by itself, before `live` or behind it.
fn said_by(alloc: Global, is_live: bool, line: &[u8]) -> Result<Said, OutOfMemory> {
    let mut text = Vec::new(alloc);
    if is_live {
        text.extend_from_slice(b"live\n")?;
    }
    text.extend_from_slice(line)?;
    match parse_script(alloc, &text, Pace::Serial) {
        Ok(script) if script.live_at.is_some() && !is_live => Ok(Said::Live),
        Ok(_) => Ok(Said::Command),
        Err(ScriptFault::Parse { column, kind, .. }) => Ok(Said::Fault { column, kind }),
        Err(ScriptFault::OutOfMemory) => Err(OutOfMemory),
        Err(
            ScriptFault::TooLong
            | ScriptFault::TooManyLines
            | ScriptFault::PaceInLive { .. }
            | ScriptFault::TooManyLive,
        ) => Ok(Said::Command),
    }
}

/// The fault of each line that has one: its first.
pub fn line_faults<'a>(alloc: Global, text: &'a [u8]) -> Result<Vec<LineFault<'a>>, OutOfMemory> {
    let mut faults = Vec::new(alloc);
    let mut is_live = false;
    let mut rest = text;
    for number in 1..u32::MAX {
        let Some((line, behind)) = first_line(rest) else {
            break;
        };
        rest = behind;
        match said_by(alloc, is_live, line)? {
            Said::Command => {}
            Said::Live => is_live = true,
            Said::Fault { column, kind } => faults.push(LineFault {
                line: number,
                text: line,
                column,
                kind,
            })?,
        }
    }
    Ok(faults)
}
