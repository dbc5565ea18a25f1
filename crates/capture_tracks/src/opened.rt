ghost use Rattle.std.specs.Prelude.{◌≡◌, ◌≤◌};
ghost use Rattle.capture_tracks.specs.Replay as replay;

use fw_base::{MOST_RECORDS_OF_ALL, Port};
use pcap_read::MOST_RECORDS;

/// How many records each of so many captures may have: together 33,554,432, and at most 4,194,304.
pub fn limit_for(captures: u32) -> u32
    requires some { 1 ≤ captures }
    requires few { captures ≤ MOST_RECORDS_OF_ALL }
    ensures exact { result ≡ replay.limit_for captures }
    ensures some { 1 ≤ result }
    ensures most { result ≤ MOST_RECORDS }
{
    (MOST_RECORDS_OF_ALL / captures).min(MOST_RECORDS)
}

/// A source that is to be read as a capture, and where that was taken.
#[derive(Drop)]
pub struct OpenedCapture<S> {
    pub port: Port,
    pub source: S,
}
