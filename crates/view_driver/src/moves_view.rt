ghost use Rattle.std.specs.Prelude.{◌≡◌, IfErr, IfOk, None, OnErr};
ghost use Rattle.view_driver.specs.MovesTold.{ComparesTexts, IsCompared, IsTroubleOf};
ghost use Rattle.view_driver.specs.Run as spec;

use crate::compared::{Compared, compare};
use crate::inputs::{open_source, read_text, report_in};
use crate::shown::{Shown, show};
use crate::trouble::{Trouble, without_flows};
use command_words::CaptureWord;
use fw_base::{Library, Sink};
use fw_rule::Items;
use replay_setup::{LibraryView, SinkView};
use report_flows::{FlowSpan, flows_of};
use std::alloc::Global;

/// The flows of what moved, from the captures of these names.
fn flows_between<'a, L: Library>(
    alloc: Global,
    library: &mut L,
    compared: &Compared,
    captures: &[CaptureWord<'a>],
) -> Result<Vec<Items<FlowSpan>>, Trouble<'a>>
    requires { IsCompared compared.now }
    ensures told { IfOk result (λ told. spec.TellsFlows ⟦<L as LibraryView>⟧.files
        library.old library.new compared.now told.items) }
    ensures cause { IfErr result (spec.IsUnreadOrFlowless ⟦<L as LibraryView>⟧.files
        library.old library.new compared.now) }
{
    let mut sources = Vec::new(alloc);
    for capture in captures {
        sources.push(open_source(alloc, library, capture.name)?)?;
    }
    match flows_of(
        alloc,
        sources,
        &compared.old,
        &compared.new,
        &compared.moves.moved,
    ) {
        Ok(flows) => Ok(flows),
        Err(fault) => Err(without_flows(captures, fault)),
    }
}

/// The same with the flows of what moved, where captures are named.
fn with_flows<'a, L: Library>(
    alloc: Global,
    library: &mut L,
    compared: Compared,
    captures: &[CaptureWord<'a>],
) -> Result<Compared, Trouble<'a>>
    requires compared { IsCompared compared }
    requires flowless { compared.flows ≡ None }
    ensures same { IfOk result (λ told. told ≡ record compared { flows = told.flows }) }
    ensures flows { IfOk result (λ told. spec.TellsFlowsIf ⟦<L as LibraryView>⟧.files
        library.old library.new compared told.flows) }
    ensures cause { IfErr result (spec.IsUnreadOrFlowless ⟦<L as LibraryView>⟧.files
        library.old library.new compared) }
{
    if captures.is_empty() {
        return Ok(compared);
    }
    let mut told = compared;
    let flows = flows_between(alloc, library, &told, captures)?;
    told.flows = Some(flows);
    Ok(told)
}

/// What moved from the report in one text to that in another, which have these names.
pub(crate) fn compared_texts<'a>(
    alloc: Global,
    names: (&'a [u8], &'a [u8]),
    old: &[u8],
    new: &[u8],
) -> Result<Compared, Trouble<'a>>
    ensures compared { IfOk result IsCompared }
    ensures outcomes { IfOk result (ComparesTexts old.now new.now) }
    ensures flowless { IfOk result (λ compared. compared.flows ≡ None) }
    ensures cause { IfErr result (IsTroubleOf
        names.entry.0.now old.now names.entry.1.now new.now) }
{
    let old_report = report_in(alloc, names.0, old)?;
    let new_report = report_in(alloc, names.1, new)?;
    compare(alloc, &old_report, &new_report)
}

/// Shows what moved from the report of one name to that of another, and its flows where captures
/// are named.
pub(crate) fn show_moves<'a, L: Library, K: Sink>(
    alloc: Global,
    library: &mut L,
    out: &mut K,
    names: (&'a [u8], &'a [u8]),
    captures: &[CaptureWord<'a>],
) -> Result<u8, Trouble<'a>>
    ensures shown { IfOk result (spec.ShowsWhatItFinds ⟦<K as SinkView>⟧.output
        ⟦<L as LibraryView>⟧.files library.old library.new out.old out.new) }
    ensures cause { IfErr result (spec.ComesToTrouble ⟦<L as LibraryView>⟧.files
        library.old library.new) }
    ensures silent { OnErr result (out.new ≡ out.old) }
{
    let (old, new) = names;
    let old_text = read_text(alloc, library, old)?;
    let new_text = read_text(alloc, library, new)?;
    let compared = compared_texts(alloc, names, &old_text, &new_text)?;
    let compared = with_flows(alloc, library, compared, captures)?;
    Ok(show(alloc, out, &Shown::Moves(&compared)))
}
