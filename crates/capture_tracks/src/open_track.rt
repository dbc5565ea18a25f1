ghost use Rattle.std.specs.Prelude.{◌≡◌, None, unwrap_or};
ghost use Rattle.pcap_read.specs.Capture.{source_of};
ghost use Rattle.report_texts.specs.declared.capture_end.CaptureEnd.TheVariants.{Read};
ghost use Rattle.capture_tracks.specs.Tracks.{StepsOn, StepsOnOrEnded};

use fw_base::{Port, Source};
use pcap_read::Capture;
use report_texts::CaptureEnd;

/// A capture whose header was read, and the record of it that is to be replayed next.
#[derive(Drop)]
pub struct OpenTrack<S> {
    pub port: Port,
    pub capture: Capture<S>,
    /// How many records it gave.
    pub records: u64,
    /// How it ended, where it did.
    pub end: Option<CaptureEnd>,
}

impl<S: Source> OpenTrack<S> {
    /// Goes on to the next record, or to the end.
    pub(crate) fn advance(&mut self)
        requires { self.old.end ≡ None }
        ensures { StepsOn S.left S.faults self.old self.new }
    {
        match self.capture.advance() {
            Ok(true) => self.records = self.records.saturating_add(1),
            Ok(false) => {
                self.end = Some(CaptureEnd::Read {
                    records: self.records,
                });
            }
            Err(fault) => {
                self.end = Some(CaptureEnd::Stopped {
                    at: self.records.saturating_add(1),
                    fault,
                    count: self.capture.faults(),
                });
            }
        }
    }

    /// Goes on where it hasn't ended.
    pub fn advance_open(&mut self)
        ensures { StepsOnOrEnded S.left S.faults self.old self.new }
    {
        if self.end.is_none() {
            self.advance();
        }
    }

    /// Its source, and how it ended; one that goes on would end with the records that it gave.
    pub(crate) fn close(self) -> (S, CaptureEnd)
        ensures source { result.0 ≡ source_of self.capture }
        ensures end { result.1 ≡ unwrap_or self.end (Read self.records) }
    {
        let OpenTrack {
            port: _,
            capture,
            records,
            end,
        } = self;
        let end = end.unwrap_or(CaptureEnd::Read { records });
        (capture.close(), end)
    }
}
