ghost use Rattle.std.specs.Prelude.{◌≡◌, ◌≤◌, IfSome, length};
ghost use Rattle.std.specs.Option.{option_map};
ghost use Rattle.capture_tracks.specs.Taken.{IsLastGiven, IsTakenAt, held_input, taken_input};

use crate::Track;
use fw_base::{Link, Port, Source};
use pcap_read::{MOST_RECORD_BYTES, Record};

/// A record of a capture that is read and that nothing met yet.
#[derive(Drop)]
pub struct Taken<'a> {
    /// Which record of the capture it is, from 1.
    pub at: u64,
    pub link: Link,
    pub port: &'a Port,
    pub record: Record<'a>,
}

/// The record that a track holds.
pub fn held<S: Source>(track: &Track<S>) -> Option<Taken<'_>>
    ensures input { option_map taken_input result ≡ held_input track.now }
    ensures number { IfSome result (λ taken. IsLastGiven track.now taken.at) }
    ensures port { IfSome result (λ taken. IsTakenAt track.now taken.port.now) }
    ensures small { IfSome result (λ taken.
        length taken.record.bytes.now ≤ MOST_RECORD_BYTES) }
{
    match track {
        Track::Refused { source: _, end: _ } => None,
        Track::Open(track) => match track.capture.current() {
            None => None,
            Some(record) => Some(Taken {
                at: track.records,
                link: track.capture.link(),
                port: &track.port,
                record,
            }),
        },
    }
}
