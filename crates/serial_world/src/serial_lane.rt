ghost use Rattle.std.specs.Prelude.{◌≡◌};

use crate::SerialInside;
use crate::lane_state::LaneState;
use std::marker::Model;

/// A lane of the serial world outside of a section: who judges the records of one capture.
#[derive(Drop)]
pub struct SerialLane {
    pub(crate) state: LaneState,
}

impl Model for SerialLane {
    ghost use Rattle.fw_world.specs.Lane.{LaneValue};
    ghost use Rattle.fw_world.specs.LaneKept.{IsLane};

    ghost Value = { LaneValue };

    ghost view = { λ lane. lane.state };

    ghost invariant = { λ lane. IsLane 0 lane.state };
}

impl SerialLane {
    /// Its place among the world's lanes, from 1.
    pub(crate) fn place(&self) -> u32
        ensures { result ≡ self.now.place }
    {
        self.state.place()
    }

    /// Whether want of memory failed it.
    pub(crate) fn has_failed(&self) -> bool
        ensures { result ≡ self.now.failed }
    {
        self.state.has_failed()
    }
}

/// What a lane is answered that tries to begin a section.
#[derive(Drop)]
pub enum SerialEntry {
    /// It is in.
    In(SerialInside),
    /// It is refused, since the edition of this number is published and it holds another.
    Revoked(SerialLane, u64),
}
