ghost use Rattle.std.specs.Prelude.{◌≡◌, ℕ, ◌≤◌, Option, List, [], length, map, is_err, IfOk, vec_capacity};
ghost use Rattle.std.specs.List.{list_any, AllByRecursion};
ghost use Rattle.fw_rule.specs.declared.command.Command.{Command};
ghost use Rattle.fw_world.specs.ByPlace.{StandFrom};
ghost use Rattle.fw_world.specs.Columns.{no_columns};
ghost use Rattle.fw_world.specs.Inputs.{Input};
ghost use Rattle.fw_world.specs.Legal.{IsLegalButSections, IsLegal};
ghost use Rattle.fw_world.specs.RecordedHits.{TellsHits};
ghost use Rattle.rule_chain.specs.Configuration.{Configuration};
ghost use Rattle.shared_world.specs.Apart.{AreApart, counted_in};
ghost use Rattle.shared_world.specs.Closing.{AreLanesOf, EachHasRoom, EachStandsFor, IsRecordOf};
ghost use Rattle.shared_world.specs.SharedLane.{SharedLane};
ghost use Rattle.shared_world.specs.Standing.{DeskStandsFor};

use crate::closing_room::ClosingRoom;
use crate::shared_book::SharedBook;
use crate::{Desk, Lane, World};
use fw_base::OutOfMemory;
use fw_world::{Columns, LaneWork, Record};
use generation_store::Edition;
use rm_lock::{Closed, Processor};
use std::sync::Arc;

impl World {
    /// The record of the world, of its lanes, each once and in any order, and of its desk: dockets, tallies
    /// and tracker words come in the order of the lanes' places, and so do hits where the lanes have a cache.
    /// It takes no memory; want of memory comes exactly where a lane has failed.
    pub fn close(self, lanes: Vec<Lane>, desk: Desk) -> Result<Record, OutOfMemory>
        requires lanes { (ordered : List SharedLane) × AreLanesOf self lanes.items ordered }
        requires all { length lanes.items ≡ desk.lanes }
        requires desk { desk.world ≡ self }
        ensures failed { is_err result ≡ list_any (λ lane. lane.failed) lanes.items }
        ensures exact { IfOk result (λ r. (ordered : List SharedLane)
            → AreLanesOf self lanes.items ordered → IsRecordOf desk ordered r) }
        ensures legal { IfOk result (λ r. (ordered : List SharedLane)
            (first : Configuration) (commands : List Command) (inputs : List (List Input))
            → AreLanesOf self lanes.items ordered
            → DeskStandsFor desk first commands → EachStandsFor ordered inputs
            → AllByRecursion (λ lane. lane.loose ≡ 0) lanes.items → IsLegal first commands inputs r) }
        ensures nearly { IfOk result (λ r. (ordered : List SharedLane)
            (first : Configuration) (commands : List Command) (inputs : List (List Input))
            → AreLanesOf self lanes.items ordered
            → DeskStandsFor desk first commands → EachStandsFor ordered inputs
            → IsLegalButSections first commands inputs r) }
        ensures hits { IfOk result (λ r. (ordered : List SharedLane)
            (cache : Option ℕ) (inputs : List (List Input))
            → AreLanesOf self lanes.items ordered → EachHasRoom cache lanes.items
            → EachStandsFor ordered inputs → TellsHits cache inputs r) }
    {
        if any_failed(&lanes) {
            return Err(OutOfMemory);
        }
        let World { lock } = self;
        let Desk {
            operator,
            store,
            lanes: _,
            room,
        } = desk;
        let ClosingRoom {
            processors,
            works,
            columns,
        } = room;
        let (processors, works) = taken_apart(processors, works, ordered(lanes));
        let Closed {
            book,
            trackers,
            editions: _,
        } = lock.close(processors, operator);
        let columns = filled(columns, works, trackers);
        Ok(Record::new(store.into_all(), book.into_book(), columns))
    }
}

/// The lanes in the order of their places.
fn ordered(mut lanes: Vec<Lane>) -> Vec<Lane>
    ensures lanes { (ordered : List SharedLane)
        → StandFrom (λ lane. lane.place) 1 lanes.items ordered → result.items ≡ ordered }
    ensures all { length result.items ≡ length lanes.items }
{
    lanes.sort_unstable_by_key(|lane| lane.place());
    lanes
}

/// Whether memory has failed one of the lanes.
fn any_failed(lanes: &[Lane]) -> bool
    ensures { result ≡ list_any (λ lane. lane.failed) lanes.now }
{
    lanes.iter().any(|lane| lane.has_failed())
}

/// Takes the lanes apart, in order: their seats of the lock, and what they did. There is room for both.
fn taken_apart(
    mut processors: Vec<Processor<Arc<Edition>, SharedBook>>,
    mut works: Vec<LaneWork>,
    lanes: Vec<Lane>,
) -> (Vec<Processor<Arc<Edition>, SharedBook>>, Vec<LaneWork>)
    requires empty { (processors.items ≡ []) × (works.items ≡ []) }
    requires room { (length lanes.items ≤ vec_capacity processors)
        × (length lanes.items ≤ vec_capacity works) }
    ensures { AreApart lanes.items result.0.items result.1.items }
{
    for lane in lanes {
        let Lane { processor, work } = lane;
        processors.push_reserved(processor);
        works.push_reserved(work.into_work());
    }
    (processors, works)
}

/// The columns of lanes that did this, with these tracker words, for which there is room.
fn filled(mut columns: Columns, works: Vec<LaneWork>, trackers: Vec<u64>) -> Columns
    requires room { columns ≡ no_columns (length works.items) }
    requires trackers { length trackers.items ≡ length works.items }
    ensures dockets { result.dockets ≡ map (λ work. work.docket) works.items }
    ensures tallies { result.tallies ≡ map (λ work. work.tally) works.items }
    ensures trackers { result.trackers ≡ trackers.items }
    ensures hits { result.hits ≡ counted_in works.items }
{
    for (work, tracker) in works.into_iter().zip(trackers) {
        columns.add(work, tracker);
    }
    columns
}
