use crate::serial_book::SerialBook;
use fw_world::Columns;
use std::marker::Model;

/// The world for one thread: the editions, and the one book of the states.
#[derive(Drop)]
pub struct SerialWorld {
    pub(crate) held: SerialBook,
    pub(crate) columns: Columns,
}

impl Model for SerialWorld {
    ghost use Rattle.std.specs.Prelude.{◌≡◌};
    ghost use Rattle.fw_world.specs.Columns.{no_columns};
    ghost use Rattle.fw_world.specs.World.{WorldValue};

    ghost Value = { WorldValue };

    ghost view = { λ w. w.held };

    ghost invariant = { λ w. w.columns ≡ no_columns w.held.journal.lanes };
}
