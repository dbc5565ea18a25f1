ghost use Rattle.std.specs.Prelude.{◌≡◌, IfOk};
ghost use Rattle.std.specs.Borrow.{Lends, sem};
ghost use Rattle.fw_world.specs.contracts.lane_work.LaneWork.{the_row as work_row};
ghost use Rattle.shared_world.specs.contracts.padded_work.PaddedWork.{the_row};

use crossbeam_utils::CachePadded;
use fw_base::OutOfMemory;
use fw_world::LaneWork;
use std::alloc::Global;
use std::marker::Model;
use std::ops::{Deref, DerefMut};

/// The work of a lane as it goes from call to call: as a pointer, since each call moves its lane. The work has
/// nothing else on its cache lines: lanes of other threads write into theirs at the same time.
#[derive(Drop)]
pub(crate) struct PaddedWork {
    padded: Box<CachePadded<LaneWork>>,
}

impl Model for PaddedWork {
    ghost use Rattle.crossbeam_utils.specs.Padded.{padded_value};
    ghost use Rattle.fw_world.specs.declared.lane_work.LaneWork.{LaneWork};

    ghost Value = { LaneWork };

    ghost view = { λ w. padded_value w.padded.value };
}

impl PaddedWork {
    pub(crate) fn new(alloc: Global, work: LaneWork) -> Result<PaddedWork, OutOfMemory>
        ensures { IfOk result (λ padded. padded ≡ work) }
    {
        Ok(PaddedWork {
            padded: Box::new(alloc, CachePadded::new(work))?,
        })
    }

    pub(crate) fn into_work(self) -> LaneWork
        ensures { result ≡ self }
    {
        let PaddedWork { padded } = self;
        Box::into_inner(padded).into_inner()
    }
}

impl Deref for PaddedWork {
    ghost use Rattle.std.specs.Prelude.{◌≡◌};

    type Target = LaneWork;

    ghost deref_gives = { λ w x. x ≡ w };

    fn deref(&self) -> &LaneWork
        ensures { result.now ≡ self.now }
    {
        &self.padded
    }
}

impl DerefMut for PaddedWork {
    ghost use Rattle.std.specs.Prelude.{◌≡◌};

    ghost deref_mut_gives = { λ w x. x ≡ w };

    fn deref_mut(&mut self) -> &mut LaneWork
        ensures* writes_back { sem 𝓛 (Lends the_row work_row self.entry result (λ w. w)) }
        ensures value { result.now ≡ self.old }
    {
        &mut self.padded
    }
}
