ghost use Rattle.std.specs.Prelude.{◌≡◌};
ghost use Rattle.report_reading.specs.LaneLines as spec;

use crate::parts::{behind, is_end, number, positive};
use fw_base::MOST_CAPTURES;

/// What the line of a lane tells.
#[derive(Clone, Copy)]
pub struct LaneLine {
    /// The capture whose lane it is, 1 to 16.
    pub lane: u64,
    /// How many entries into a section were refused to it.
    pub refused: u64,
    /// Its tracker's word.
    pub tracker: u64,
}

/// What the line of a lane tells; `None` where the line is none.
#[tactic(auto, unfolding(crate::specs::LaneLines::lane_in))]
pub(crate) fn lane_in(line: &[u8]) -> Option<LaneLine>
    ensures { result ≡ spec.lane_in line.now }
{
    let (lane, rest) = positive(behind(b"lane ", line)?, u64::from(MOST_CAPTURES))?;
    let (refused, rest) = number(behind(b" refused ", rest)?, u64::MAX)?;
    let (tracker, rest) = number(behind(b" tracker ", rest)?, u64::MAX)?;
    lane_of(lane, refused, tracker, rest)
}

/// A lane, where the line ends here.
fn lane_of(lane: u64, refused: u64, tracker: u64, rest: &[u8]) -> Option<LaneLine>
    ensures { result ≡ spec.lane_of lane refused tracker rest.now }
{
    if is_end(rest) {
        Some(LaneLine {
            lane,
            refused,
            tracker,
        })
    } else {
        None
    }
}

/// The edition whose publication the line tells; `None` where the line is none.
#[tactic(auto, unfolding(crate::specs::LaneLines::publication_in))]
pub(crate) fn publication_in(line: &[u8]) -> Option<u64>
    ensures { result ≡ spec.publication_in line.now }
{
    let (number, rest) = positive(behind(b"publish ", line)?, u64::MAX)?;
    if is_end(rest) { Some(number) } else { None }
}
