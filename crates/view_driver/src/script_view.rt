ghost use Rattle.std.specs.Prelude.{◌≡◌, IfErr, IfOk, OnErr};
ghost use Rattle.view_driver.specs.Run as spec;

use crate::inputs::read_text;
use crate::script_text::Reviewed;
use crate::shown::{Shown, show};
use crate::trouble::Trouble;
use command_words::CaptureWord;
use fw_base::{Library, OutOfMemory, Sink};
use replay_setup::{LibraryView, SinkView};
use script_review::{findings_in, line_faults};
use std::alloc::Global;

/// The interfaces of captures.
fn interfaces_of<'a>(
    alloc: Global,
    captures: &[CaptureWord<'a>],
) -> Result<Vec<&'a [u8]>, OutOfMemory> {
    let mut interfaces = Vec::new(alloc);
    for capture in captures {
        interfaces.push(capture.interface)?;
    }
    Ok(interfaces)
}

/// Shows what is wrong or odd with a script, beside captures of these interfaces.
fn show_reviewed<K: Sink>(
    alloc: Global,
    out: &mut K,
    text: &[u8],
    interfaces: &[&[u8]],
) -> Result<u8, OutOfMemory>
    ensures shown { IfOk result (spec.ShowsOneText ⟦<K as SinkView>⟧.output out.old out.new) }
    ensures silent { OnErr result (out.new ≡ out.old) }
{
    let faults = line_faults(alloc, text)?;
    let findings = findings_in(alloc, text, interfaces)?;
    let reviewed = Reviewed {
        faults: &faults,
        findings: &findings,
    };
    Ok(show(alloc, out, &Shown::Script(reviewed)))
}

/// Shows what is wrong or odd with the script of that name, beside these captures.
pub(crate) fn show_script<'a, L: Library, K: Sink>(
    alloc: Global,
    library: &mut L,
    out: &mut K,
    script: &'a [u8],
    captures: &[CaptureWord<'_>],
) -> Result<u8, Trouble<'a>>
    ensures shown { IfOk result (spec.ShowsOneText ⟦<K as SinkView>⟧.output out.old out.new) }
    ensures cause { IfErr result (spec.IsUnreadOrMemory ⟦<L as LibraryView>⟧.files library.new) }
    ensures silent { OnErr result (out.new ≡ out.old) }
{
    let text = read_text(alloc, library, script)?;
    let interfaces = interfaces_of(alloc, captures)?;
    Ok(show_reviewed(alloc, out, &text, &interfaces)?)
}
