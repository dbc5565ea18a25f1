ghost use Rattle.std.specs.Prelude.{IfErr, IfOk};
ghost use Rattle.replay_setup.specs.Openings.{Opens};
ghost use Rattle.report_values.specs.Reports.{IsReport};
ghost use Rattle.view_driver.specs.MovesTold.{IsNoReport};
ghost use Rattle.view_driver.specs.Run as spec;

use crate::trouble::Trouble;
use fw_base::{Failed, Library, Name};
use replay_setup::{LibraryView, NamedSource, read_named};
use report_values::{Report, ReportError, read_report};
use std::alloc::Global;

/// How many bytes of a report are read at most: 4 GiB.
const MOST_BYTES: usize = 4_294_967_296;

/// A source of the bytes of that name.
pub(crate) fn open_source<'a, L: Library>(
    alloc: Global,
    library: &mut L,
    name: &'a [u8],
) -> Result<L::Reader, Trouble<'a>>
    ensures opened { IfOk result (λ source.
        Opens ⟦<L as LibraryView>⟧.files library.old library.new name.now source) }
    ensures cause { IfErr result (spec.IsUnreadOrMemory ⟦<L as LibraryView>⟧.files library.new) }
{
    match library.open(Name::new(alloc, name)?) {
        Ok(source) => Ok(source),
        Err(Failed) => Err(Trouble::Unread(name)),
    }
}

/// The text of that name.
pub(crate) fn read_text<'a, L: Library>(
    alloc: Global,
    library: &mut L,
    name: &'a [u8],
) -> Result<Vec<u8>, Trouble<'a>>
    ensures text { IfOk result (λ text.
        spec.ReadsText ⟦<L as LibraryView>⟧.files library.old library.new name.now text.items) }
    ensures cause { IfErr result (spec.IsUnreadOrMemory ⟦<L as LibraryView>⟧.files library.new) }
{
    let path = Name::new(alloc, name)?;
    match read_named(alloc, &path, MOST_BYTES, library)? {
        NamedSource::Read(_source, text) => Ok(text),
        NamedSource::Broken(_) | NamedSource::Refused => Err(Trouble::Unread(name)),
    }
}

/// The report of that name, in its text.
pub(crate) fn report_in<'a, 't>(
    alloc: Global,
    name: &'a [u8],
    text: &'t [u8],
) -> Result<Report<'t>, Trouble<'a>>
    ensures report { IfOk result (λ report.
        IsReport text.now report.captures.items report.behind.now) }
    ensures cause { IfErr result (IsNoReport name.now text.now) }
{
    match read_report(alloc, text) {
        Ok(report) => Ok(report),
        Err(ReportError::Line(line)) => Err(Trouble::NoReport(name, line)),
        Err(ReportError::OutOfMemory) => Err(Trouble::OutOfMemory),
    }
}
