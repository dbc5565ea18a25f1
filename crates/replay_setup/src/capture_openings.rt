ghost use Rattle.std.specs.Prelude.{◌≡◌, IfOk, OnErr, map, vec_len, length};
ghost use Rattle.command_words.specs.Invocation.{capture_names};
ghost use Rattle.replay_setup.specs.CaptureOpenings.{OpensCapture, OpensCaptures};

use crate::LibraryView;
use capture_tracks::OpenedCapture;
use command_words::CaptureWord;
use fw_base::{Library, Name, OutOfMemory, Port};
use std::alloc::Global;

/// What the openings of captures come to.
#[derive(Drop)]
pub(crate) enum CaptureOpenings<S> {
    /// All were opened.
    All(Vec<OpenedCapture<S>>),
    /// This name was refused, behind those that were opened.
    Refused(Name, Vec<OpenedCapture<S>>),
}

/// What one opening comes to.
#[derive(Drop)]
enum CaptureOpening<S> {
    Opened(OpenedCapture<S>),
    Refused(Name),
}

/// Opens a capture.
fn open_capture<L: Library>(
    alloc: Global,
    capture: &CaptureWord<'_>,
    library: &mut L,
) -> Result<CaptureOpening<L::Reader>, OutOfMemory>
    ensures { IfOk result (OpensCapture ⟦<L as LibraryView>⟧.files
        library.old library.new (capture_names capture.now)) }
{
    let name = Name::new(alloc, capture.name)?;
    let port = Port {
        direction: capture.direction,
        interface: Name::new(alloc, capture.interface)?,
    };
    match library.open(name.clone()?) {
        Ok(source) => Ok(CaptureOpening::Opened(OpenedCapture { port, source })),
        Err(_) => Ok(CaptureOpening::Refused(name)),
    }
}

/// Opens captures in their order, to the first name that is refused.
pub(crate) fn open_captures<L: Library>(
    alloc: Global,
    captures: &[CaptureWord<'_>],
    library: &mut L,
) -> Result<CaptureOpenings<L::Reader>, OutOfMemory>
    ensures { IfOk result (OpensCaptures ⟦<L as LibraryView>⟧.files
        library.old library.new (map capture_names captures.now)) }
{
    let mut opened = Vec::new(alloc);
    for capture in captures {
        match open_capture(alloc, capture, library)? {
            CaptureOpening::Opened(next) => opened.push(next)?,
            CaptureOpening::Refused(name) => return Ok(CaptureOpenings::Refused(name, opened)),
        }
    }
    Ok(CaptureOpenings::All(opened))
}
