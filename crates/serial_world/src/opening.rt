ghost use Rattle.std.specs.Prelude.{◌≡◌, ◌≤◌, ◌∷◌, [], IfOk};
ghost use Rattle.std.specs.Arc.{arc_value};
ghost use Rattle.fw_world.specs.Caches.{IsCacheSize};
ghost use Rattle.generation_store.specs.Published.{IsEdition};
ghost use Rattle.state_journal.specs.Journal.{first_journal};
ghost use Rattle.serial_world.specs.SerialLane.{first_lanes};
ghost use Rattle.serial_world.specs.WorldKept.{IsNewWorld};

use crate::lane_state::LaneState;
use crate::serial_book::SerialBook;
use crate::{OpenSerial, SerialDesk, SerialLane, SerialWorld};
use fw_base::{MOST_CAPTURES, OutOfMemory};
use fw_world::{Columns, open_cache, share_edition, store_of};
use generation_store::Edition;
use rule_chain::Config;
use std::alloc::Global;
use std::sync::Arc;

/// The lanes of a world that is opened.
fn open_lanes(alloc: Global, lanes: u32, cache: Option<u32>) -> Result<Vec<SerialLane>, OutOfMemory>
    requires most { lanes ≤ MOST_CAPTURES }
    requires cache { IsCacheSize cache }
    ensures { IfOk result (λ opened. opened.items ≡ first_lanes cache 1 lanes) }
{
    let mut opened = Vec::with_capacity(alloc, lanes as usize)?;
    for place in 1..=lanes {
        opened.push(SerialLane {
            state: LaneState::new(alloc, place, open_cache(alloc, cache)?),
        })?;
    }
    Ok(opened)
}

/// The desk of a world that shows this edition alone.
fn open_desk(alloc: Global, edition: &Arc<Edition>) -> Result<SerialDesk, OutOfMemory>
    ensures { IfOk result (λ desk. desk ≡ arc_value edition.now ∷ []) }
{
    Ok(SerialDesk {
        store: store_of(alloc, share_edition(edition)?)?,
    })
}

/// The world of so many lanes that shows edition 1 alone.
fn open_world(alloc: Global, edition: Arc<Edition>, lanes: u32) -> Result<SerialWorld, OutOfMemory>
    requires number { (arc_value edition).number ≡ 1 }
    requires factual { IsEdition (arc_value edition) }
    requires lanes { (1 ≤ lanes) × (lanes ≤ MOST_CAPTURES) }
    ensures editions { IfOk result (λ world. world.editions ≡ arc_value edition ∷ []) }
    ensures journal { IfOk result (λ world.
        world.journal ≡ first_journal lanes (arc_value edition).facts) }
{
    let held = SerialBook::open(alloc, edition, lanes)?;
    let columns = Columns::with_room(alloc, lanes)?;
    Ok(SerialWorld { held, columns })
}

impl SerialWorld {
    /// A world of so many lanes that shows the configuration as edition 1, with its lanes and its desk. Each
    /// lane has a cache for so many verdicts, 1 to 65,536, or none has one. The memory that closing it needs
    /// is taken here.
    pub fn open(
        alloc: Global,
        config: Config,
        lanes: u32,
        cache: Option<u32>,
    ) -> Result<OpenSerial, OutOfMemory>
        requires least { 1 ≤ lanes }
        requires most { lanes ≤ MOST_CAPTURES }
        requires cache { IsCacheSize cache }
        ensures world { IfOk result (λ opened. IsNewWorld config lanes opened.world) }
        ensures lanes { IfOk result (λ opened. opened.lanes.items ≡ first_lanes cache 1 lanes) }
        ensures desk { IfOk result (λ opened. opened.desk ≡ opened.world.editions) }
    {
        let edition = Edition::build(alloc, 1, config)?;
        let desk = open_desk(alloc, &edition)?;
        let world = open_world(alloc, edition, lanes)?;
        let lanes = open_lanes(alloc, lanes, cache)?;
        Ok(OpenSerial { world, lanes, desk })
    }
}
