ghost use Rattle.std.specs.Prelude.{IfErr, IfOk, IsOk, length};
ghost use Rattle.report_values.specs.Reports as spec;
ghost use Rattle.report_values.specs.Sections.{sections};

use crate::lines::line_number;
use crate::sections::{Sections, read_sections};
use crate::{Capture, Lines, Unfit, read_captures};
use std::alloc::Global;

/// Why a text isn't read as a report.
#[derive(Clone, Copy)]
pub enum ReportError {
    /// The line of this number, from 1, is none that a report has there; also one past the last,
    /// where lines are missing.
    Line(u64),
    OutOfMemory,
}

/// A report, whole: the sections in their order.
#[derive(Drop)]
pub struct Report<'a> {
    /// What is told of the captures, from capture 1 on.
    pub captures: Vec<Capture<'a>>,
    /// The text behind the lines of the captures.
    pub behind: &'a [u8],
    /// What stands in that text.
    pub sections: Sections<'a>,
}

/// Reads what a report tells, to the text's end.
fn read_parts<'a>(alloc: Global, text: &'a [u8]) -> Result<Report<'a>, Unfit<'a>>
    ensures captures { IfOk result (λ report.
        spec.HasCaptures text.now report.captures.items report.behind.now) }
    ensures sections { IfOk result (λ report.
        IsOk (sections (length report.captures.items) report.behind.now)) }
    ensures cause { IfErr result (spec.HasUnfit text.now) }
{
    let mut lines = Lines::new(text);
    let captures = read_captures(alloc, &mut lines)?;
    let behind = lines.rest;
    let sections = read_sections(alloc, &mut lines, captures.len() as u64)?;
    Ok(Report {
        captures,
        behind,
        sections,
    })
}

/// Reads a whole report. Each section stands there with as many lines as it says, those of caches
/// and of a journal's lanes with one for each capture, and nothing stands behind the last.
pub fn read_report<'a>(alloc: Global, text: &'a [u8]) -> Result<Report<'a>, ReportError>
    ensures report { IfOk result (λ report.
        spec.IsReport text.now report.captures.items report.behind.now) }
    ensures cause { IfErr result (spec.HasCause text.now) }
{
    match read_parts(alloc, text) {
        Ok(report) => Ok(report),
        Err(Unfit::At(rest)) => Err(ReportError::Line(line_number(text, rest))),
        Err(Unfit::OutOfMemory) => Err(ReportError::OutOfMemory),
    }
}
