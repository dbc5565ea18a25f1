ghost use Rattle.std.specs.Prelude.{◌≡◌, IsSome};
ghost use Rattle.generation_store.specs.Published.{IsEdition};
ghost use Rattle.shared_world.specs.LaneCalls.{EntersLane, RegainsLane, LeavesLane, SkipsNext};

use crate::{Inside, Lane, LaneEntry, World};
use fw_base::OutOfMemory;
use fw_world::{Skipped, skipped_entry};
use generation_store::Edition;
use rm_lock::Entry;
use std::sync::Wait;

impl World {
    /// Begins a section of the lane. It is in, and reads an edition of the number that it holds, or it is
    /// refused with a greater number. It waits for nobody and takes no memory.
    pub fn enter(&self, lane: Lane) -> LaneEntry
        requires lane { lane.world ≡ self.now }
        ensures entry { EntersLane lane result }
    {
        let Lane {
            processor,
            mut work,
        } = lane;
        let place = processor.place();
        work.loosen(processor.is_refused());
        match self.lock.enter(processor) {
            Entry::In(reading) => {
                law_of_edition(reading.edition());
                LaneEntry::In(Inside {
                    reading,
                    place,
                    work,
                    judged: false,
                })
            }
            Entry::Revoked(processor, number) => {
                work.docket.refuse();
                LaneEntry::Revoked(Lane { processor, work }, number)
            }
        }
    }

    /// Ends the section. It waits for nobody and takes no memory.
    pub fn leave(&self, inside: Inside) -> Lane
        requires lane { inside.lane.world ≡ self.now }
        ensures left { LeavesLane inside result }
    {
        let Inside {
            reading,
            place: _,
            mut work,
            judged,
        } = inside;
        work.loosen(!judged);
        let processor = self.lock.leave(reading);
        Lane { processor, work }
    }

    /// The lane, which was refused, takes up what is published under the lock behind, for which it waits. It
    /// takes no memory.
    pub fn regain<R: Wait>(&self, rt: &R, lane: Lane) -> Lane
        requires lane { lane.world ≡ self.now }
        requires refused { IsSome lane.refusal }
        ensures regained { RegainsLane lane result }
    {
        let Lane { processor, work } = lane;
        let processor = self.lock.regain(rt, processor);
        Lane { processor, work }
    }

    /// Enters a record of the lane that isn't judged. Where memory is wanted the lane has failed. It waits
    /// for nobody.
    pub fn skip(&self, lane: Lane, entry: Skipped) -> (Lane, Result<(), OutOfMemory>)
        ensures entered { SkipsNext lane result.0 entry result.1 }
        ensures world { result.0.world ≡ lane.world }
    {
        let Lane {
            processor,
            mut work,
        } = lane;
        let outcome = work.enter(skipped_entry(entry));
        (Lane { processor, work }, outcome)
    }
}

/// Does nothing, and says that the edition has the facts of its configuration.
fn law_of_edition(edition: &Edition)
    ensures { IsEdition edition.now }
{
    let _config = edition.config();
}
