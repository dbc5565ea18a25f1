ghost use Rattle.std.specs.Prelude.{◌≡◌, IfOk};

use crate::shared_book::SharedBook;
use fw_base::OutOfMemory;
use fw_world::{Columns, LaneWork};
use generation_store::Edition;
use rm_lock::Processor;
use std::alloc::Global;
use std::marker::Model;
use std::sync::Arc;

/// The memory that closing a world of so many lanes takes.
#[derive(Drop)]
pub(crate) struct ClosingRoom {
    pub(crate) processors: Vec<Processor<Arc<Edition>, SharedBook>>,
    pub(crate) works: Vec<LaneWork>,
    pub(crate) columns: Columns,
}

impl Model for ClosingRoom {
    ghost use Rattle.std.specs.Prelude.{◌≡◌, ◌≤◌, ℕ, [], vec_capacity};
    ghost use Rattle.fw_world.specs.Columns.{no_columns};

    ghost Value = { ℕ };

    ghost view = { λ r. r.columns.room };

    ghost invariant = { λ r. (r.processors.items ≡ []) × (r.works.items ≡ [])
        × (r.columns ≡ no_columns r.columns.room)
        × (r.columns.room ≤ vec_capacity r.processors)
        × (r.columns.room ≤ vec_capacity r.works) };
}

impl ClosingRoom {
    /// The memory for so many lanes.
    pub(crate) fn with_room(alloc: Global, lanes: u32) -> Result<ClosingRoom, OutOfMemory>
        ensures { IfOk result (λ room. room ≡ lanes) }
    {
        Ok(ClosingRoom {
            processors: Vec::with_capacity(alloc, lanes as usize)?,
            works: Vec::with_capacity(alloc, lanes as usize)?,
            columns: Columns::with_room(alloc, lanes)?,
        })
    }
}
