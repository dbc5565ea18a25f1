ghost use Rattle.std.specs.Prelude.{◌≡◌};
ghost use Rattle.view_driver.specs.Shown as spec;

use crate::compared::Compared;
use crate::moves_text::write_compared;
use crate::script_text::{Reviewed, review_status, write_reviewed};
use crate::trouble::Trouble;
use crate::trouble_text::{trouble_status, write_trouble};
use buffered_io::{PIECE_BYTES, PieceSink};
use core::mem::replace_with;
use fw_base::{Failed, Sink};
use replay_setup::{SinkView, status_written};
use report_page::{Piece, write_page};
use std::alloc::Global;

/// What is shown, which stands whole before a byte is written.
#[derive(Clone, Copy)]
pub(crate) enum Shown<'a> {
    Moves(&'a Compared),
    Page(&'a [Piece<'a>]),
    Script(Reviewed<'a>),
    Trouble(Trouble<'a>),
}

/// Writes what is shown.
fn write_shown<K: Sink>(out: &mut K, shown: &Shown<'_>) -> Result<(), Failed>
    ensures { spec.WritesShown (K.state out.old) (K.state out.new) shown.now result }
{
    match shown {
        Shown::Moves(compared) => write_compared(out, compared),
        Shown::Page(pieces) => write_page(out, pieces),
        Shown::Script(reviewed) => write_reviewed(out, reviewed),
        Shown::Trouble(trouble) => write_trouble(out, *trouble),
    }
}

/// The status of what is shown, where it is written.
fn status_of(shown: &Shown<'_>) -> u8
    ensures { result ≡ spec.shown_status shown.now }
{
    match shown {
        Shown::Moves(_) | Shown::Page(_) => 0,
        Shown::Script(reviewed) => review_status(reviewed),
        Shown::Trouble(trouble) => trouble_status(trouble),
    }
}

/// Writes what is shown in pieces as large as the buffer, and gives the sink back.
fn write_pieced<K: Sink>(sink: K, text: (Vec<u8>, &Shown<'_>)) -> (K, Result<(), Failed>)
    ensures { spec.WritesShown (K.state sink) (K.state result.0) text.entry.1.now result.1 }
{
    let (mut buffer, shown) = text;
    buffer.clear();
    let mut pieces = PieceSink::new(sink, buffer);
    let written = match write_shown(&mut pieces, shown) {
        Ok(()) => pieces.flush(),
        Err(Failed) => Err(Failed),
    };
    (pieces.into_inner(), written)
}

/// Shows it, and answers the status. Where memory ran out there is nothing to write.
pub(crate) fn show<K: Sink>(alloc: Global, out: &mut K, shown: &Shown<'_>) -> u8
    ensures { spec.ShowsIfMemory ⟦<K as SinkView>⟧.output out.old out.new shown.now result }
{
    let wanted = status_of(shown);
    if wanted == trouble_status(&Trouble::OutOfMemory) {
        return wanted;
    }
    let Ok(buffer) = Vec::with_capacity(alloc, PIECE_BYTES) else {
        return trouble_status(&Trouble::OutOfMemory);
    };
    let written = replace_with(out, (buffer, shown), write_pieced);
    status_written(wanted, written)
}
