use crate::lane_state::LaneState;
use std::marker::Model;

/// A lane of the serial world within a section, in which it may judge one packet.
#[derive(Drop)]
pub struct SerialInside {
    pub(crate) state: LaneState,
    pub(crate) judged: bool,
}

impl Model for SerialInside {
    ghost use Rattle.serial_world.specs.SerialLane.{InsideValue, IsInside};

    ghost Value = { InsideValue };

    ghost view = { λ inside. record { lane = inside.state; judged = inside.judged } };

    ghost invariant = { λ inside.
        IsInside (record { lane = inside.state; judged = inside.judged }) };
}
