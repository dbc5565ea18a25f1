ghost use Rattle.std.specs.Prelude.{◌≡◌, ◌≤◌, IfOk, length};
ghost use Rattle.std.specs.List.{AllByRecursion};
ghost use Rattle.fw_world.specs.Caches.{IsCacheSize};
ghost use Rattle.shared_world.specs.Apart.{AreNewOf};
ghost use Rattle.shared_world.specs.Closing.{AreNewLanes};
ghost use Rattle.shared_world.specs.LaneKept.{IsNewSeat};
ghost use Rattle.shared_world.specs.SharedDesk.{IsNewDesk};

use crate::closing_room::ClosingRoom;
use crate::preparing::shares_of;
use crate::shared_book::SharedBook;
use crate::{Desk, Lane, OpenWorld, World};
use fw_base::{MOST_CAPTURES, OutOfMemory};
use fw_world::store_of;
use generation_store::Edition;
use rm_lock::{Opened, Processor, RmLock};
use rule_chain::Config;
use std::alloc::Global;
use std::sync::Arc;

/// The lanes of the processors of a new lock, each with a cache for so many verdicts or with none.
fn lanes_of(
    alloc: Global,
    processors: Vec<Processor<Arc<Edition>, SharedBook>>,
    cache: Option<u32>,
) -> Result<Vec<Lane>, OutOfMemory>
    requires seats { AllByRecursion (λ p. IsNewSeat p.view) processors.items }
    requires cache { IsCacheSize cache }
    ensures { IfOk result (λ lanes. AreNewOf cache processors.items lanes.items) }
{
    let mut lanes = Vec::with_capacity(alloc, processors.len())?;
    for processor in processors {
        let lane = Lane::new(alloc, processor, cache)?;
        lanes.push(lane)?;
    }
    Ok(lanes)
}

impl World {
    /// A world of so many lanes that shows the configuration as edition 1, with its lanes and its desk. Each
    /// lane has a cache for so many verdicts, 1 to 65,536, or none has one. The memory that closing it needs
    /// is taken here.
    pub fn open(
        alloc: Global,
        config: Config,
        lanes: u32,
        cache: Option<u32>,
    ) -> Result<OpenWorld, OutOfMemory>
        requires least { 1 ≤ lanes }
        requires most { lanes ≤ MOST_CAPTURES }
        requires cache { IsCacheSize cache }
        ensures lanes { IfOk result (λ opened.
            AreNewLanes opened.world cache 1 opened.lanes.items) }
        ensures count { IfOk result (λ opened. length opened.lanes.items ≡ lanes) }
        ensures desk { IfOk result (λ opened. IsNewDesk config lanes opened.world opened.desk) }
    {
        let edition = Edition::build(alloc, 1, config)?;
        let book = SharedBook::open(alloc, &edition, lanes)?;
        let shares = shares_of(alloc, &edition, lanes)?;
        let store = store_of(alloc, edition)?;
        let room = ClosingRoom::with_room(alloc, lanes)?;
        let Opened {
            lock,
            processors,
            operator,
        } = RmLock::open(alloc, shares, book)?;
        let opened = lanes_of(alloc, processors, cache)?;
        Ok(OpenWorld {
            world: World { lock },
            lanes: opened,
            desk: Desk {
                operator,
                store,
                lanes,
                room,
            },
        })
    }
}
