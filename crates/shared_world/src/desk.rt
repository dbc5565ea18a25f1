ghost use Rattle.std.specs.Prelude.{◌≡◌, length};
ghost use Rattle.fw_world.specs.Editions.{IsLastOf};
ghost use Rattle.generation_store.specs.Published.{Published};

use crate::closing_room::ClosingRoom;
use crate::shared_book::SharedBook;
use fw_world::last_edition;
use generation_store::{Edition, Store};
use rm_lock::Operator;
use rule_chain::Config;
use std::marker::Model;
use std::sync::Arc;

/// Who publishes editions of a shared world. It keeps the memory that closing the world takes.
#[derive(Drop)]
pub struct Desk {
    pub(crate) operator: Operator<Arc<Edition>, SharedBook>,
    pub(crate) store: Store,
    pub(crate) lanes: u32,
    pub(crate) room: ClosingRoom,
}

impl Model for Desk {
    ghost use Rattle.std.specs.Prelude.{◌≡◌};
    ghost use Rattle.shared_world.specs.DeskKept.{IsSharedDesk};
    ghost use Rattle.shared_world.specs.SharedDesk.{SharedDesk};

    ghost Value = { SharedDesk };

    ghost view = { λ d. record {
      world = d.operator.table_id;
      lanes = d.lanes;
      editions = d.store.editions;
      steps = d.operator.view.steps;
    } };

    ghost invariant = { λ d. IsSharedDesk d.lanes d.operator.view d.store.editions
        × (d.room ≡ d.lanes) };
}

impl Desk {
    /// The configuration of the last edition.
    pub fn config(&self) -> &Config
        ensures { (edition : Published) × IsLastOf self.now.editions edition
            × (result.now ≡ edition.config) }
    {
        last_edition(self.store.all()).config()
    }

    /// The number of the last edition.
    pub fn number(&self) -> u64
        ensures { result ≡ length self.now.editions }
    {
        self.store.all().len() as u64
    }
}
