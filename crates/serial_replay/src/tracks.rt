ghost use Rattle.std.specs.Prelude.{◌≡◌, ◌<◌, ◌≤◌, ℕ, IfOk, Some, map, length, vec_len, slice_get};
ghost use Rattle.std.specs.Option.{option_copied, option_map};
ghost use Rattle.pcap_read.specs.Capture.{current_of};
ghost use Rattle.capture_tracks.specs.Tracks.{end_of, held_record_of, source_at};
ghost use Rattle.serial_replay.specs.Tracks.{BeginAll, GoesFurtherAt, open_of};
ghost use Rattle.serial_schedule.specs.Order as order;
ghost use Rattle.serial_schedule.specs.Order.{moment_of};

use capture_tracks::{OpenTrack, OpenedCapture, Track};
use fw_base::{OutOfMemory, Source};
use pcap_read::{Capture, MOST_RECORDS};
use report_texts::CaptureEnd;
use serial_schedule::{Moment, first_capture};
use std::alloc::Global;
use std::marker::Model;

/// Captures that are being replayed, in their order.
#[derive(Drop)]
pub(crate) struct Tracks<S> {
    tracks: Vec<Track<S>>,
    /// When the records that they hold were captured.
    moments: Vec<Option<Moment>>,
}

impl<S> Model for Tracks<S> {
    ghost use Rattle.std.specs.Prelude.{◌≡◌, List, map};
    ghost use Rattle.std.specs.Option.{option_map};
    ghost use Rattle.capture_tracks.specs.declared.track.Track.{Track};
    ghost use Rattle.capture_tracks.specs.Tracks.{held_record_of};
    ghost use Rattle.serial_schedule.specs.Order.{moment_of};

    ghost Value = { List (Track S) };

    ghost view = { λ t. t.tracks.items };

    ghost invariant = { λ t. t.moments.items
        ≡ map (option_map moment_of) (map held_record_of t.tracks.items) };
}

/// When the record that a capture gave last was captured.
fn moment<S: Source>(capture: &Capture<S>) -> Option<Moment>
    ensures { result ≡ option_map moment_of (current_of capture.now) }
{
    match capture.current() {
        Some(record) => Some(Moment {
            second: record.second,
            nanos: record.nanos,
        }),
        None => None,
    }
}

/// When the record that a track holds was captured.
fn held_moment<S: Source>(track: &Track<S>) -> Option<Moment>
    ensures { result ≡ option_map moment_of (held_record_of track.now) }
{
    match track {
        Track::Open(track) => moment(&track.capture),
        Track::Refused { source: _, end: _ } => None,
    }
}

impl<S: Source> Tracks<S> {
    /// Opens the captures, of each of which at most `limit` records are read.
    pub(crate) fn open(
        alloc: Global,
        captures: Vec<OpenedCapture<S>>,
        limit: u32,
    ) -> Result<Tracks<S>, OutOfMemory>
        requires some { 1 ≤ limit }
        requires most { limit ≤ MOST_RECORDS }
        ensures { IfOk result (BeginAll S.left S.faults limit captures.items) }
    {
        let mut tracks = Vec::with_capacity(alloc, captures.len())?;
        let mut moments = Vec::with_capacity(alloc, captures.len())?;
        for opened in captures {
            let track = Track::open(alloc, opened, limit)?;
            moments.push(held_moment(&track))?;
            tracks.push(track)?;
        }
        Ok(Tracks { tracks, moments })
    }

    /// The capture whose held record comes first.
    pub(crate) fn first(&self) -> Option<usize>
        ensures { result
            ≡ order.first_capture (map (option_map moment_of) (map held_record_of self.now)) }
    {
        first_capture(&self.moments)
    }

    /// The track of a capture whose header was read.
    pub(crate) fn open_track(&self, capture: usize) -> Option<&OpenTrack<S>>
        ensures { option_copied result ≡ open_of (slice_get self.now capture) }
    {
        match self.tracks.get(capture) {
            Some(Track::Open(track)) => Some(track),
            Some(Track::Refused { source: _, end: _ }) => None,
            None => None,
        }
    }

    /// The capture goes on: the record that it held was replayed.
    pub(crate) fn advance(&mut self, capture: usize)
        requires { capture < length self.old }
        ensures { GoesFurtherAt S.left S.faults capture self.old self.new }
    {
        let track = &mut self.tracks[capture];
        track.advance();
        self.moments[capture] = held_moment(track);
    }

    /// Their sources, and how they ended.
    pub(crate) fn close(self, alloc: Global) -> Result<(Vec<S>, Vec<CaptureEnd>), OutOfMemory>
        ensures sources { IfOk result (λ closed. closed.0.items ≡ map source_at self) }
        ensures ends { IfOk result (λ closed. closed.1.items ≡ map end_of self) }
    {
        let Tracks { tracks, moments: _ } = self;
        let mut sources = Vec::with_capacity(alloc, tracks.len())?;
        let mut ends = Vec::with_capacity(alloc, tracks.len())?;
        for track in tracks {
            let (source, end) = track.close();
            sources.push(source)?;
            ends.push(end)?;
        }
        Ok((sources, ends))
    }
}
