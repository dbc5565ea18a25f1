ghost use Rattle.std.specs.Prelude.{◌≡◌, ◌<◌, ℕ, length, IfOk, OnOk, Option, List, is_err, map};
ghost use Rattle.std.specs.List.{list_any, AllByRecursion};
ghost use Rattle.fw_rule.specs.declared.command.Command.{Command};
ghost use Rattle.rule_chain.specs.Configuration.{Configuration};
ghost use Rattle.fw_world.specs.RecordedHits.{TellsHits, EachHasRoom, counted_by};
ghost use Rattle.fw_world.specs.ByPlace.{StandFrom};
ghost use Rattle.fw_world.specs.Closing.{AreLanesOf, EachStandsFor, record_of_world};
ghost use Rattle.fw_world.specs.Legal.{IsLegalButSections, IsLegal};
ghost use Rattle.fw_world.specs.Columns.{no_columns, with_lane};
ghost use Rattle.fw_world.specs.Inputs.{Input};
ghost use Rattle.fw_world.specs.Lane.{LaneValue};
ghost use Rattle.fw_world.specs.LaneKept.{IsLane};
ghost use Rattle.fw_world.specs.World.{DeskStandsFor};

use crate::serial_book::SerialBook;
use crate::{SerialDesk, SerialLane, SerialWorld};
use fw_base::OutOfMemory;
use fw_world::{Columns, Record};

impl SerialWorld {
    /// The record of the world and of its lanes, each once and in any order: dockets, tallies and tracker
    /// words come in the order of the lanes' places, and so do hits where the lanes have a cache. Want of
    /// memory comes exactly where a lane has failed.
    pub fn close(self, lanes: Vec<SerialLane>, desk: SerialDesk) -> Result<Record, OutOfMemory>
        requires lanes { (ordered : List LaneValue) × AreLanesOf self lanes.items ordered }
        requires all { length lanes.items ≡ self.journal.lanes }
        requires desk { desk ≡ self.editions }
        ensures failed { is_err result ≡ list_any (λ lane. lane.failed) lanes.items }
        ensures exact { IfOk result (λ r. (ordered : List LaneValue)
            → AreLanesOf self lanes.items ordered → r ≡ record_of_world self ordered) }
        ensures legal { OnOk result ((ordered : List LaneValue)
            (first : Configuration) (commands : List Command) (inputs : List (List Input))
            → AreLanesOf self lanes.items ordered
            → DeskStandsFor desk first commands → EachStandsFor self ordered inputs
            → AllByRecursion (λ lane. lane.loose ≡ 0) lanes.items
            → IsLegal first commands inputs (record_of_world self ordered)) }
        ensures nearly { OnOk result ((ordered : List LaneValue)
            (first : Configuration) (commands : List Command) (inputs : List (List Input))
            → AreLanesOf self lanes.items ordered
            → DeskStandsFor desk first commands → EachStandsFor self ordered inputs
            → IsLegalButSections first commands inputs (record_of_world self ordered)) }
        ensures hits { OnOk result ((ordered : List LaneValue)
            (cache : Option ℕ) (inputs : List (List Input))
            → AreLanesOf self lanes.items ordered
            → EachHasRoom cache lanes.items → EachStandsFor self ordered inputs
            → TellsHits cache inputs (record_of_world self ordered)) }
    {
        if any_failed(&lanes) {
            return Err(OutOfMemory);
        }
        let SerialWorld { held, columns } = self;
        let SerialBook { book, store } = held;
        let columns = filled(columns, ordered(lanes));
        Ok(Record::new(store.into_all(), book, columns))
    }
}

/// The lanes of a world in the order of their places.
fn ordered(mut lanes: Vec<SerialLane>) -> Vec<SerialLane>
    ensures lanes { (ordered : List LaneValue)
        → StandFrom (λ lane. lane.place) 1 lanes.items ordered → result.items ≡ ordered }
    ensures all { length result.items ≡ length lanes.items }
{
    lanes.sort_unstable_by_key(|lane| lane.place());
    lanes
}

/// Whether memory has failed one of the lanes.
fn any_failed(lanes: &[SerialLane]) -> bool
    ensures { result ≡ list_any (λ lane. lane.failed) lanes.now }
{
    lanes.iter().any(|lane| lane.has_failed())
}

/// Adds the lane to the columns as the last one.
fn add_lane(columns: &mut Columns, lane: SerialLane)
    requires room { 0 < columns.old.room }
    ensures added { columns.new ≡ with_lane lane.docket lane.tally lane.cache lane.tracker columns.old }
    ensures lane { IsLane 0 lane }
{
    let (work, tracker) = lane.state.into_parts();
    columns.add(work, tracker);
}

/// The columns of these lanes, for which there is room.
fn filled(mut columns: Columns, lanes: Vec<SerialLane>) -> Columns
    requires { columns ≡ no_columns (length lanes.items) }
    ensures dockets { result.dockets ≡ map (λ lane. lane.docket) lanes.items }
    ensures tallies { result.tallies ≡ map (λ lane. lane.tally) lanes.items }
    ensures trackers { result.trackers ≡ map (λ lane. lane.tracker) lanes.items }
    ensures hits { result.hits ≡ counted_by lanes.items }
    ensures lanes { AllByRecursion (IsLane 0) lanes.items }
{
    for lane in lanes {
        add_lane(&mut columns, lane);
    }
    columns
}
