ghost use Rattle.std.specs.Prelude.{◌≡◌, IfErr, IfOk, OnErr};
ghost use Rattle.view_driver.specs.Run as spec;

use crate::compared::{Compared, records_of};
use crate::inputs::{read_text, report_in};
use crate::moves_view::compared_texts;
use crate::shown::{Shown, show};
use crate::trouble::{Trouble, without_states};
use fw_base::{Library, OutOfMemory, Sink};
use replay_setup::{LibraryView, SinkView};
use report_page::{LiveStates, MovesShown, columns_of, page_of};
use report_states::live_states;
use report_values::{JournalColumns, Report};
use std::alloc::Global;

/// The columns of a journal in which the states are asked nothing.
const NO_COLUMNS: JournalColumns = JournalColumns {
    first: 0,
    seconds: 1,
    count: 0,
};

/// How many states lived along the journal of that report, by the script of that name.
fn live_states_by<'a, L: Library>(
    alloc: Global,
    library: &mut L,
    name: &'a [u8],
    report: &Report<'_>,
    script: &'a [u8],
) -> Result<LiveStates, Trouble<'a>>
    ensures { IfErr result (spec.IsWithoutStates ⟦<L as LibraryView>⟧.files library.new) }
{
    let text = read_text(alloc, library, script)?;
    let Some(journal) = &report.sections.journal else {
        return Err(Trouble::NoJournal(name));
    };
    let columns = columns_of(journal);
    match live_states(alloc, &text, journal.lines, columns.unwrap_or(NO_COLUMNS)) {
        Ok(counts) => Ok(LiveStates { columns, counts }),
        Err(fault) => Err(without_states((name, script), journal, fault)),
    }
}

/// How many states lived along the journal of that report, where a script is named that tells it.
fn live_states_if<'a, L: Library>(
    alloc: Global,
    library: &mut L,
    name: &'a [u8],
    report: &Report<'_>,
    script: Option<&'a [u8]>,
) -> Result<Option<LiveStates>, Trouble<'a>>
    ensures { IfErr result (spec.IsWithoutStates ⟦<L as LibraryView>⟧.files library.new) }
{
    match script {
        Some(script) => Ok(Some(live_states_by(alloc, library, name, report, script)?)),
        None => Ok(None),
    }
}

/// Shows a page of a report, with what moved and with live states where they are told.
fn show_pieces<'t, K: Sink>(
    alloc: Global,
    out: &mut K,
    report: &Report<'t>,
    moves: Option<&MovesShown<'t>>,
    live: Option<&LiveStates>,
) -> Result<u8, OutOfMemory>
    ensures shown { IfOk result (spec.ShowsOneText ⟦<K as SinkView>⟧.output out.old out.new) }
    ensures silent { OnErr result (out.new ≡ out.old) }
{
    let pieces = page_of(alloc, report, moves, live)?;
    Ok(show(alloc, out, &Shown::Page(&pieces)))
}

/// Shows a page of the report of that name, in its text, with what moved where it is told, by the script of that
/// name where there is one.
fn show_report<'a, 't, L: Library, K: Sink>(
    alloc: Global,
    library: &mut L,
    out: &mut K,
    named: (&'a [u8], &'t [u8]),
    moves: Option<&MovesShown<'t>>,
    script: Option<&'a [u8]>,
) -> Result<u8, Trouble<'a>>
    ensures shown { IfOk result (spec.ShowsOneText ⟦<K as SinkView>⟧.output out.old out.new) }
    ensures cause { IfErr result (spec.IsWithoutPage ⟦<L as LibraryView>⟧.files
        library.new named.entry.0.now named.entry.1.now) }
    ensures silent { OnErr result (out.new ≡ out.old) }
{
    let (name, text) = named;
    let report = report_in(alloc, name, text)?;
    let live = live_states_if(alloc, library, name, &report, script)?;
    Ok(show_pieces(alloc, out, &report, moves, live.as_ref())?)
}

/// Shows a page of one report, by the script of that name where there is one.
pub(crate) fn show_page<'a, L: Library, K: Sink>(
    alloc: Global,
    library: &mut L,
    out: &mut K,
    name: &'a [u8],
    script: Option<&'a [u8]>,
) -> Result<u8, Trouble<'a>>
    ensures shown { IfOk result (spec.ShowsOneText ⟦<K as SinkView>⟧.output out.old out.new) }
    ensures cause { IfErr result (spec.ComesToTrouble ⟦<L as LibraryView>⟧.files
        library.old library.new) }
    ensures silent { OnErr result (out.new ≡ out.old) }
{
    let text = read_text(alloc, library, name)?;
    show_report(alloc, library, out, (name, &text), None, script)
}

/// What moved, as a page shows it.
fn moves_shown(compared: &Compared) -> MovesShown<'_> {
    MovesShown {
        texts: &compared.texts,
        old: &compared.old,
        new: &compared.new,
        moved: &compared.moves.moved,
        moved_records: records_of(&compared.moves.moved),
        verdict_records: compared.other_verdicts,
        stayed_records: records_of(&compared.moves.stayed),
    }
}

/// Shows a page of one report with what moved to another, by the script of that name where there is
/// one.
pub(crate) fn show_page_with_moves<'a, L: Library, K: Sink>(
    alloc: Global,
    library: &mut L,
    out: &mut K,
    names: (&'a [u8], &'a [u8]),
    script: Option<&'a [u8]>,
) -> Result<u8, Trouble<'a>>
    ensures shown { IfOk result (spec.ShowsWhatItFinds ⟦<K as SinkView>⟧.output
        ⟦<L as LibraryView>⟧.files library.old library.new out.old out.new) }
    ensures cause { IfErr result (spec.ComesToTrouble ⟦<L as LibraryView>⟧.files
        library.old library.new) }
    ensures silent { OnErr result (out.new ≡ out.old) }
{
    let (old, new) = names;
    let old_text = read_text(alloc, library, old)?;
    let new_text = read_text(alloc, library, new)?;
    let compared = compared_texts(alloc, names, &old_text, &new_text)?;
    let moves = moves_shown(&compared);
    show_report(alloc, library, out, (old, &old_text), Some(&moves), script)
}
