ghost use Rattle.std.specs.Prelude.{◌≡◌, ◌==◌, ◌++◌, ◌∷◌, [], ℕ, IfOk, OnOk, find};
ghost use Rattle.run_audit.specs.Indexes as spec;

use crate::told_report::ToldLane;
use fw_base::OutOfMemory;
use std::alloc::Global;
use std::marker::Model;

/// The lines of lanes, found by the lane that they name. Contracts see them in the report's order.
#[derive(Drop)]
pub(crate) struct LaneIndex {
    lanes: Vec<ToldLane>,
    /// The first line of each lane that has one.
    firsts: Vec<ToldLane>,
}

impl Model for LaneIndex {
    ghost use Rattle.std.specs.Prelude.{◌≡◌, ℕ, List, find};
    ghost use Rattle.run_audit.specs.Indexes.{is_line_of_lane};
    ghost use Rattle.run_audit.specs.declared.told_report.ToldLane.{ToldLane};

    ghost Value = { List ToldLane };

    ghost view = { λ l. l.lanes.items };

    ghost invariant = { λ l. (lane : ℕ)
        → find (is_line_of_lane lane) l.firsts.items ≡ find (is_line_of_lane lane) l.lanes.items };
}

/// The first of these lines that is of this lane.
fn first_of_lane(lanes: &[ToldLane], lane: u64) -> Option<ToldLane>
    ensures { result ≡ find (spec.is_line_of_lane lane) lanes.now }
{
    for one in lanes {
        if one.told.lane == lane {
            return Some(*one);
        }
    }
    None
}

/// Keeps a line behind others, where it is the first of its lane.
fn keep_first(firsts: &mut Vec<ToldLane>, one: ToldLane) -> Result<(), OutOfMemory>
    ensures { OnOk result ((lane : ℕ) → find (spec.is_line_of_lane lane) firsts.new.items
        ≡ find (spec.is_line_of_lane lane) (firsts.old.items ++ one ∷ [])) }
{
    match first_of_lane(firsts, one.told.lane) {
        Some(_) => Ok(()),
        None => {
            firsts.push(one)?;
            Ok(())
        }
    }
}

/// The first line of each lane that has one.
fn firsts_of(alloc: Global, lanes: &[ToldLane]) -> Result<Vec<ToldLane>, OutOfMemory>
    ensures { IfOk result (λ firsts. (lane : ℕ)
        → find (spec.is_line_of_lane lane) firsts.items
        ≡ find (spec.is_line_of_lane lane) lanes.now) }
{
    let mut firsts = Vec::new(alloc);
    for one in lanes {
        keep_first(&mut firsts, *one)?;
    }
    Ok(firsts)
}

impl LaneIndex {
    /// The index of these lines.
    pub(crate) fn new(alloc: Global, lanes: Vec<ToldLane>) -> Result<LaneIndex, OutOfMemory>
        ensures { IfOk result (λ index. index ≡ lanes.items) }
    {
        let firsts = firsts_of(alloc, &lanes)?;
        Ok(LaneIndex { lanes, firsts })
    }

    /// All lines, in the report's order.
    pub(crate) fn all(&self) -> &[ToldLane]
        ensures { result.now ≡ self.now }
    {
        &self.lanes
    }

    /// The first line that names this lane.
    pub(crate) fn naming(&self, lane: u64) -> Option<ToldLane>
        ensures { result ≡ find (spec.is_line_of_lane lane) self.now }
    {
        first_of_lane(&self.firsts, lane)
    }
}
