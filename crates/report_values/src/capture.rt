ghost use Rattle.std.specs.Prelude.{◌≡◌, ◌+◌, ◌++◌, IfErr, IfOk, IfSome, MatchOption, length};
ghost use Rattle.report_texts.specs.DocketText.{record_lines};
ghost use Rattle.report_values.specs.Captures as spec;

use crate::capture_lines::begins_capture_line;
use crate::{EndLine, Lines, Records, Unfit};
use fw_base::{MOST_CAPTURES, OutOfMemory};
use std::alloc::Global;

/// What is told of a capture.
#[derive(Drop)]
pub struct Capture<'a> {
    pub records: Records,
    pub end: EndLine<'a>,
}

/// The lines of a capture's records, as far as they stand here.
fn read_records(alloc: Global, lines: &mut Lines<'_>, capture: u64) -> Result<Records, OutOfMemory>
    ensures lines { IfOk result (λ records.
        lines.old.rest.now ≡ record_lines capture 1 records ++ lines.new.rest.now) }
    ensures none { IfOk result (λ records.
        spec.IsNoRecord capture (1 + length records) lines.new.rest.now) }
{
    let mut records = Records::new(alloc);
    for place in 0..u64::MAX {
        match lines.record(capture, place + 1) {
            Some(entry) => records.push(entry)?,
            None => return Ok(records),
        }
    }
    Ok(records)
}

/// The lines of the capture of this number; `None` where they don't stand here: then what is left
/// begins with the line that isn't one of them.
fn read_capture<'a>(
    alloc: Global,
    lines: &mut Lines<'a>,
    number: u64,
) -> Result<Option<Capture<'a>>, OutOfMemory>
    ensures lines { IfOk result (λ found. MatchOption found
        (spec.IsCutOff number lines.old.rest.now lines.new.rest.now)
        (λ capture. lines.old.rest.now
        ≡ spec.capture_lines number capture ++ lines.new.rest.now)) }
    ensures end { IfOk result (λ found. IfSome found (λ capture.
        spec.IsEnd number (length capture.records) capture.end)) }
{
    let records = read_records(alloc, lines, number)?;
    match lines.capture_end(number, records.len() as u64) {
        Some(end) => Ok(Some(Capture { records, end })),
        None => Ok(None),
    }
}

/// Reads the lines of all captures, from the first on, behind which no line of captures stands.
pub fn read_captures<'a>(
    alloc: Global,
    lines: &mut Lines<'a>,
) -> Result<Vec<Capture<'a>>, Unfit<'a>>
    ensures lines { IfOk result (λ captures.
        lines.old.rest.now ≡ spec.captures_lines 1 captures.items ++ lines.new.rest.now) }
    ensures ends { IfOk result (λ captures. spec.HaveEnds 1 captures.items) }
    ensures behind { IfOk result (λ captures. spec.IsBehindCaptures lines.new.rest.now) }
    ensures cause { IfErr result (spec.HasCause lines.old.rest.now) }
{
    let mut captures = Vec::new(alloc);
    for place in 0..MOST_CAPTURES as u64 {
        let rest = lines.rest;
        match read_capture(alloc, lines, place + 1)? {
            Some(capture) => captures.push(capture)?,
            None if begins_capture_line(rest) => return Err(Unfit::At(lines.rest)),
            None => {
                lines.rest = rest;
                return Ok(captures);
            }
        }
    }
    if begins_capture_line(lines.rest) {
        Err(Unfit::At(lines.rest))
    } else {
        Ok(captures)
    }
}
