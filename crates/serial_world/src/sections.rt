ghost use Rattle.std.specs.Prelude.{◌≡◌, false, IsSome};
ghost use Rattle.serial_world.specs.SerialLane as lanes;
ghost use Rattle.serial_world.specs.SerialLane.{lane_after_regain};
ghost use Rattle.serial_world.specs.Steps.{SkipsNext};
ghost use Rattle.serial_world.specs.SerialEntries.{entry_of};
ghost use Rattle.fw_world.specs.World.{published_count, IsLaneOf};

use crate::{SerialEntry, SerialInside, SerialLane, SerialWorld};
use fw_base::OutOfMemory;
use fw_world::{Skipped, skipped_entry};

impl SerialWorld {
    /// The number of the last edition.
    pub(crate) fn published(&self) -> u64
        ensures { result ≡ published_count self.now }
    {
        self.held.published()
    }

    /// Begins a section of the lane: it is in where it holds the last edition, and is refused where it
    /// holds an earlier one.
    pub fn enter(&mut self, lane: SerialLane) -> SerialEntry
        requires { IsLaneOf self.old lane }
        ensures entry { result ≡ entry_of (published_count self.old) lane }
        ensures world { self.new ≡ self.old }
    {
        let published = self.published();
        let SerialLane { mut state } = lane;
        if state.enter(published) {
            SerialEntry::In(SerialInside {
                state,
                judged: false,
            })
        } else {
            SerialEntry::Revoked(SerialLane { state }, published)
        }
    }

    /// Ends the section.
    pub fn leave(&mut self, inside: SerialInside) -> SerialLane
        ensures lane { result ≡ lanes.lane_after_leave inside }
        ensures world { self.new ≡ self.old }
    {
        let SerialInside { mut state, judged } = inside;
        state.leave(judged);
        SerialLane { state }
    }

    /// The lane, which was refused, takes up the last edition.
    pub fn regain(&mut self, lane: SerialLane) -> SerialLane
        requires of_world { IsLaneOf self.old lane }
        requires refused { IsSome lane.refusal }
        ensures lane { result ≡ lane_after_regain (published_count self.old) lane }
        ensures world { self.new ≡ self.old }
    {
        let published = self.published();
        let SerialLane { mut state } = lane;
        state.regain(published);
        SerialLane { state }
    }

    /// Enters a record of the lane that isn't judged. Where memory is wanted the lane has failed.
    pub fn skip(
        &mut self,
        lane: SerialLane,
        entry: Skipped,
    ) -> (SerialLane, Result<(), OutOfMemory>)
        ensures entered { SkipsNext self.old lane result.0 entry result.1 }
        ensures world { self.new ≡ self.old }
    {
        let mut lane = lane;
        let outcome = self.pass_over(&mut lane, entry);
        (lane, outcome)
    }

    /// The same, where the lane stays in its place.
    pub fn pass_over(&mut self, lane: &mut SerialLane, entry: Skipped) -> Result<(), OutOfMemory>
        ensures entered { SkipsNext self.old lane.old lane.new entry result }
        ensures world { self.new ≡ self.old }
    {
        lane.state.work().enter(skipped_entry(entry))
    }
}
