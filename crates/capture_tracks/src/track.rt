ghost use Rattle.std.specs.Prelude.{◌≡◌, ◌≤◌, IfOk};
ghost use Rattle.capture_tracks.specs.Tracks.{Begins, BeginsRefused, GoesFurther, end_of, source_at};

use crate::OpenedCapture;
use crate::open_track::OpenTrack;
use fw_base::{OutOfMemory, Source};
use pcap_read::{Capture, CaptureFault, MOST_RECORDS, OpenFault};
use report_texts::CaptureEnd;
use std::alloc::Global;

/// A capture that is being replayed.
#[derive(Drop)]
pub enum Track<S> {
    Open(OpenTrack<S>),
    /// Its header told no capture.
    Refused { source: S, end: CaptureEnd },
}

/// A source that is no capture.
fn refused_track<S: Source>(refused: OpenFault<S>) -> Result<Track<S>, OutOfMemory>
    ensures { IfOk result (BeginsRefused S.left S.faults refused) }
{
    let OpenFault { fault, source } = refused;
    if let CaptureFault::OutOfMemory = fault {
        return Err(OutOfMemory);
    }
    let count = source.faults();
    Ok(Track::Refused {
        source,
        end: CaptureEnd::Stopped {
            at: 0,
            fault,
            count,
        },
    })
}

impl<S: Source> Track<S> {
    /// Reads the header of a source, of which at most `limit` records are read, and its first record. It fails
    /// for want of memory alone: a source that is no capture is refused.
    pub fn open(
        alloc: Global,
        opened: OpenedCapture<S>,
        limit: u32,
    ) -> Result<Track<S>, OutOfMemory>
        requires some { 1 ≤ limit }
        requires most { limit ≤ MOST_RECORDS }
        ensures { IfOk result (Begins S.left S.faults limit opened) }
    {
        let OpenedCapture { port, source } = opened;
        match Capture::open(alloc, source, limit) {
            Ok(capture) => {
                let mut track = OpenTrack {
                    port,
                    capture,
                    records: 0,
                    end: None,
                };
                track.advance();
                Ok(Track::Open(track))
            }
            Err(refused) => refused_track(refused),
        }
    }

    /// Goes on to the next record, or to the end; one that has ended stays.
    pub fn advance(&mut self)
        ensures { GoesFurther S.left S.faults self.old self.new }
    {
        match self {
            Track::Open(track) => track.advance_open(),
            Track::Refused { source: _, end: _ } => {}
        }
    }

    /// Its source, and how it ended.
    pub fn close(self) -> (S, CaptureEnd)
        ensures source { result.0 ≡ source_at self }
        ensures end { result.1 ≡ end_of self }
    {
        match self {
            Track::Open(track) => track.close(),
            Track::Refused { source, end } => (source, end),
        }
    }
}
