ghost use Rattle.std.specs.Prelude.{◌≡◌, ℕ, Option, None, ◌==◌};
ghost use Rattle.std.specs.Borrow.{Lends, sem};
ghost use Rattle.fw_world.specs.Caches.{first_cache};
ghost use Rattle.fw_world.specs.LaneSteps.{work_of, with_work};
ghost use Rattle.fw_world.specs.contracts.lane_work.LaneWork.{the_row as work_row};
ghost use Rattle.serial_world.specs.SerialLane as lanes;
ghost use Rattle.serial_world.specs.SerialLane.{first_lane, lane_after_try, lane_after_admission, lane_after_regain};
ghost use Rattle.serial_world.specs.contracts.lane_state.LaneState.{the_row};

use cached_verdicts::LaneCache;
use fw_world::LaneWork;
use std::alloc::Global;
use std::marker::Model;

/// A lane of the serial world, within a section or outside.
#[derive(Drop)]
pub(crate) struct LaneState {
    place: u32,
    number: u64,
    refusal: Option<u64>,
    tracker: u64,
    work: LaneWork,
}

impl Model for LaneState {
    ghost use Rattle.fw_world.specs.Lane.{LaneValue};

    ghost Value = { LaneValue };

    ghost view = { λ s. record {
      place = s.place;
      number = s.number;
      refusal = s.refusal;
      tracker = s.tracker;
      docket = s.work.docket;
      tally = s.work.tally;
      cache = s.work.cache;
      failed = s.work.failed;
      loose = s.work.loose;
    } };
}

impl LaneState {
    /// A lane that has judged nothing, with this new cache or with none.
    pub(crate) fn new(alloc: Global, place: u32, cache: Option<LaneCache>) -> LaneState
        ensures { (capacity : Option ℕ) → cache ≡ first_cache capacity
            → result ≡ first_lane capacity place }
    {
        LaneState {
            place,
            number: 1,
            refusal: None,
            tracker: 0,
            work: LaneWork::new(alloc, cache),
        }
    }

    pub(crate) fn place(&self) -> u32
        ensures { result ≡ self.now.place }
    {
        self.place
    }

    pub(crate) fn has_failed(&self) -> bool
        ensures { result ≡ self.now.failed }
    {
        self.work.failed
    }

    /// Begins a section: the lane is in where its number is the published one, and else is refused.
    pub(crate) fn enter(&mut self, published: u64) -> bool
        ensures in_it { result ≡ (self.old.number == published) }
        ensures lane { self.new ≡ lane_after_try published self.old }
    {
        self.tracker = self.tracker.wrapping_add(2);
        self.work.loosen(self.refusal.is_some());
        if self.number == published {
            true
        } else {
            self.work.docket.refuse();
            self.refusal = Some(published);
            false
        }
    }

    /// Takes up what is published.
    pub(crate) fn regain(&mut self, published: u64)
        ensures { self.new ≡ lane_after_regain published self.old }
    {
        self.number = published;
        self.refusal = None;
    }

    /// Begins a section; where it is refused it regains and begins another.
    pub(crate) fn admit(&mut self, published: u64)
        requires { self.old.refusal ≡ None }
        ensures { self.new ≡ lane_after_admission published self.old }
    {
        if !self.enter(published) {
            self.regain(published);
            let _is_in = self.enter(published);
        }
    }

    /// Leaves the section, in which a packet was judged or not.
    pub(crate) fn leave(&mut self, judged: bool)
        ensures { self.new ≡ lanes.lane_after_leave (record { lane = self.old; judged = judged }) }
    {
        self.work.loosen(!judged);
    }

    /// What it did, lent for the steps that a lane makes in whichever world.
    pub(crate) fn work(&mut self) -> &mut LaneWork
        ensures* writes_back { sem 𝓛
            (Lends the_row work_row self.entry result (with_work self.old)) }
        ensures value { result.now ≡ work_of self.old }
    {
        &mut self.work
    }

    /// What it did, and its tracker word.
    pub(crate) fn into_parts(self) -> (LaneWork, u64)
        ensures docket { result.0.docket ≡ self.docket }
        ensures tally { result.0.tally ≡ self.tally }
        ensures cache { result.0.cache ≡ self.cache }
        ensures tracker { result.1 ≡ self.tracker }
    {
        (self.work, self.tracker)
    }
}
