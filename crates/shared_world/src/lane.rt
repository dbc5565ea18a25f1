ghost use Rattle.std.specs.Prelude.{◌≡◌, [], IfOk};
ghost use Rattle.fw_world.specs.Caches.{IsCacheSize};
ghost use Rattle.shared_world.specs.LaneKept.{IsNewSeat};
ghost use Rattle.shared_world.specs.SharedLane.{new_lane};
ghost use Rattle.shared_world.specs.Standing.{LaneStandsFor};

use crate::padded_work::PaddedWork;
use crate::shared_book::SharedBook;
use fw_base::OutOfMemory;
use fw_world::{LaneWork, open_cache};
use generation_store::Edition;
use rm_lock::Processor;
use std::alloc::Global;
use std::marker::Model;
use std::sync::Arc;

/// A lane of a shared world outside of a section: who judges the records of one capture.
#[derive(Drop)]
pub struct Lane {
    pub(crate) processor: Processor<Arc<Edition>, SharedBook>,
    pub(crate) work: PaddedWork,
}

impl Model for Lane {
    ghost use Rattle.shared_world.specs.LaneKept.{IsSharedLane};
    ghost use Rattle.shared_world.specs.SharedLane.{SharedLane, lane_of};

    ghost Value = { SharedLane };

    ghost view = { λ l. lane_of l.processor.table_id l.processor.view l.work };

    ghost invariant = { λ l. IsSharedLane 0 l.processor.view l.work };
}

impl Lane {
    /// The lane of a processor of a new lock, with a cache for so many verdicts or with none.
    pub(crate) fn new(
        alloc: Global,
        processor: Processor<Arc<Edition>, SharedBook>,
        cache: Option<u32>,
    ) -> Result<Lane, OutOfMemory>
        requires seat { IsNewSeat processor.view }
        requires cache { IsCacheSize cache }
        ensures lane { IfOk result (λ lane.
            lane ≡ new_lane processor.table_id cache processor.view.place) }
        ensures stands { IfOk result (λ lane. LaneStandsFor lane []) }
    {
        let cache = open_cache(alloc, cache)?;
        let work = PaddedWork::new(alloc, LaneWork::new(alloc, cache))?;
        Ok(Lane { processor, work })
    }

    /// Its place among the world's lanes, from 1.
    pub fn place(&self) -> u32
        ensures { result ≡ self.now.place }
    {
        self.processor.place()
    }

    /// The number of the edition that it last held or regained.
    pub fn number(&self) -> u64
        ensures { result ≡ self.now.number }
    {
        self.processor.number()
    }

    /// Whether want of memory failed it.
    pub(crate) fn has_failed(&self) -> bool
        ensures { result ≡ self.now.failed }
    {
        self.work.failed
    }
}
