ghost use Rattle.std.specs.Prelude.{◌≡◌, ◌∷◌, [], IfOk, map};
ghost use Rattle.command_words.specs.Invocation.{capture_names};
ghost use Rattle.replay_setup.specs.FirstEdition as editions;
ghost use Rattle.capture_tracks.specs.Replay.{sources_of};
ghost use Rattle.replay_setup.specs.Ready.{ComesToOpened, ComesToReady, FindsEdition};

use crate::capture_openings::{CaptureOpenings, open_captures};
use crate::first_edition::{FirstEdition, read_first_edition};
use crate::named_source::{NamedSource, read_named};
use crate::{LibraryView, ScriptError};
use capture_tracks::OpenedCapture;
use command_words::{CaptureWord, Mode};
use fw_base::{Library, Name, OutOfMemory};
use fw_command::{Pace, SCRIPT_BYTES};
use std::alloc::Global;

/// A replay whose names were opened, and whose script gives edition 1.
#[derive(Drop)]
pub struct Ready<S> {
    /// The script's source, behind its reading.
    pub script: S,
    /// What the script gives before a packet is read.
    pub first: FirstEdition,
    /// The captures' sources, of which nothing was read.
    pub captures: Vec<OpenedCapture<S>>,
}

/// What the names of a replay come to before a capture is read.
#[derive(Drop)]
pub enum Readiness<S> {
    /// This name could not be opened or read. The sources are those that were opened.
    Unread(Name, Vec<S>),
    /// All names were opened, and the script gives no edition.
    NoEdition(ScriptError, Vec<S>),
    /// All names were opened, and the script gives edition 1.
    Ready(Ready<S>),
}

/// The pace of a script in this mode.
fn pace_of(mode: Mode) -> Pace
    ensures { result ≡ editions.pace_of mode }
{
    match mode {
        Mode::Serial => Pace::Serial,
        Mode::Live => Pace::Live,
    }
}

/// The source of a script, and those of the captures that were opened behind it.
fn all_sources<S: Drop>(
    alloc: Global,
    script: S,
    opened: Vec<OpenedCapture<S>>,
) -> Result<Vec<S>, OutOfMemory>
    ensures { IfOk result (λ sources. sources.items ≡ script ∷ sources_of opened.items) }
{
    let mut sources = Vec::with_capacity(alloc, opened.len())?;
    sources.push(script)?;
    for capture in opened {
        sources.push(capture.source)?;
    }
    Ok(sources)
}

/// What a script of these bytes gives beside captures that were opened.
fn find_edition<S: Drop>(
    alloc: Global,
    mode: Mode,
    script: S,
    bytes: &[u8],
    captures: Vec<OpenedCapture<S>>,
) -> Result<Readiness<S>, OutOfMemory>
    ensures { IfOk result (FindsEdition mode script bytes.now captures.items) }
{
    match read_first_edition(alloc, pace_of(mode), bytes) {
        Ok(first) => Ok(Readiness::Ready(Ready {
            script,
            first,
            captures,
        })),
        Err(ScriptError::OutOfMemory) => Err(OutOfMemory),
        Err(error) => Ok(Readiness::NoEdition(error, all_sources(alloc, script, captures)?)),
    }
}

/// Opens the captures behind a script that was read.
fn open_behind<L: Library>(
    alloc: Global,
    mode: Mode,
    script: L::Reader,
    bytes: &[u8],
    captures: &[CaptureWord<'_>],
    library: &mut L,
) -> Result<Readiness<L::Reader>, OutOfMemory>
    ensures { IfOk result (ComesToOpened ⟦<L as LibraryView>⟧.files mode script bytes.now
        (map capture_names captures.now) library.old library.new) }
{
    match open_captures(alloc, captures, library)? {
        CaptureOpenings::Refused(name, opened) => Ok(Readiness::Unread(
            name,
            all_sources(alloc, script, opened)?,
        )),
        CaptureOpenings::All(opened) => find_edition(alloc, mode, script, bytes, opened),
    }
}

/// A list of one source.
fn one_source<S: Drop>(alloc: Global, source: S) -> Result<Vec<S>, OutOfMemory>
    ensures { IfOk result (λ sources. sources.items ≡ source ∷ []) }
{
    let mut sources = Vec::new(alloc);
    sources.push(source)?;
    Ok(sources)
}

/// Opens and reads a script, opens the captures behind it, in their order, and makes edition 1.
pub fn make_ready<L: Library>(
    alloc: Global,
    mode: Mode,
    script: &[u8],
    captures: &[CaptureWord<'_>],
    library: &mut L,
) -> Result<Readiness<L::Reader>, OutOfMemory>
    ensures { IfOk result (ComesToReady ⟦<L as LibraryView>⟧.files mode script.now
        (map capture_names captures.now) library.old library.new) }
{
    let name = Name::new(alloc, script)?;
    match read_named(alloc, &name, SCRIPT_BYTES + 1, library)? {
        NamedSource::Refused => Ok(Readiness::Unread(name, Vec::new(alloc))),
        NamedSource::Broken(source) => Ok(Readiness::Unread(name, one_source(alloc, source)?)),
        NamedSource::Read(source, bytes) => {
            open_behind(alloc, mode, source, &bytes, captures, library)
        }
    }
}
