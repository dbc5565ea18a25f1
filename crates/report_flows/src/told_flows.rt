ghost use Rattle.std.specs.Prelude.{◌≡◌, ◌≢◌, ℕ, [], All, Err, IfErr, IfOk, OnOk, OnErr, length};
ghost use Rattle.report_moves.specs.Moves.{AreToldOnce, HaveSameLengths, IsToldOf};
ghost use Rattle.report_flows.specs.Captures.{AreAllCounted, AreToldFlows, HasCause, IsCauseIn, IsCountedCapture, IsFirstCause};
ghost use Rattle.report_flows.specs.declared.flows_fault.FlowsFault.TheVariants.{Captures};
ghost use Rattle.report_flows.specs.Counting as spec;

use crate::capture_counts::{Outcomes, count_capture};
use crate::flow_counts::FlowCounts;
use crate::{FlowSpan, FlowsFault};
use fw_base::{OutOfMemory, Source};
use fw_rule::Items;
use report_moves::Move;
use std::alloc::Global;

/// Nothing counted, for so many moves.
fn none_counted(alloc: Global, moves: usize) -> Result<Vec<FlowCounts>, OutOfMemory>
    ensures { IfOk result (λ counts. spec.IsNoneCounted moves counts.items) }
{
    let mut counts = Vec::with_capacity(alloc, moves)?;
    for _ in 0..moves {
        counts.push(FlowCounts::new(alloc))?;
    }
    Ok(counts)
}

/// Counts the flows of the records of a capture, which has as many of them as the reports.
fn count_whole<S: Source>(
    alloc: Global,
    counts: &mut [FlowCounts],
    moves: &[Move],
    told: &Outcomes<'_>,
    source: S,
) -> Result<(), FlowsFault>
    requires once { AreToldOnce moves.now }
    requires lengths { length told.now.old.now ≡ length told.now.new.now }
    requires count { length counts.old ≡ length moves.now }
    requires none { (place : ℕ) → (spec.move_at moves.now place).capture ≡ told.now.capture
        → spec.entries_at counts.old place ≡ [] }
    ensures counted { OnOk result (IsCountedCapture S.left S.faults source moves.now
        told.now.capture told.now.old.now told.now.new.now (length told.now.old.now)
        counts.old counts.new) }
    ensures cause { IfErr result (IsCauseIn S.left S.faults told.now.capture
        (length told.now.old.now) source) }
{
    let read = count_capture(alloc, counts, moves, told, source)?;
    let records = told.old.len() as u64;
    if read != records {
        return Err(FlowsFault::Records {
            capture: told.capture,
            told: records,
            read,
        });
    }
    Ok(())
}

/// Counts the flows of each capture's records.
fn count_captures<S: Source>(
    alloc: Global,
    captures: Vec<S>,
    old: &[Items<u32>],
    new: &[Items<u32>],
    moves: &[Move],
) -> Result<Vec<FlowCounts>, FlowsFault>
    requires captures { length captures.items ≡ length old.now }
    requires lengths { HaveSameLengths old.now new.now }
    requires once { AreToldOnce moves.now }
    ensures counted { IfOk result (λ counts. AreAllCounted S.left S.faults captures.items old.now
        new.now moves.now counts.items) }
    ensures cause { IfErr result (HasCause S.left S.faults captures.items old.now) }
{
    let mut counts = none_counted(alloc, moves.len())?;
    let mut at: usize = 0;
    for source in captures {
        let told = Outcomes {
            capture: at as u64 + 1,
            old: old[at].as_slice(),
            new: new[at].as_slice(),
        };
        count_whole(alloc, &mut counts, moves, &told, source)?;
        at += 1;
    }
    Ok(counts)
}

/// What was counted for each move.
fn tell_all(alloc: Global, counts: &[FlowCounts]) -> Result<Vec<Items<FlowSpan>>, OutOfMemory>
    ensures { IfOk result (λ told. spec.AreAllTold counts.now told.items) }
{
    let mut told = Vec::with_capacity(alloc, counts.len())?;
    for flows in counts {
        told.push(Items::from_vec(flows.told(alloc)?))?;
    }
    Ok(told)
}

/// The flows of the records of each of these moves between two lists of outcomes, from the captures behind them: of
/// each move the most records first, and of as many the first record. No capture is read where their number isn't that
/// of the lists.
pub fn flows_of<S: Source>(
    alloc: Global,
    captures: Vec<S>,
    old: &[Items<u32>],
    new: &[Items<u32>],
    moves: &[Move],
) -> Result<Vec<Items<FlowSpan>>, FlowsFault>
    requires lengths { HaveSameLengths old.now new.now }
    requires told { All (IsToldOf old.now new.now) moves.now }
    requires once { AreToldOnce moves.now }
    // Each record of a move is counted in one flow, its packet's: each flow of a move is told once, with how many
    // records of the move have it, the first and the last, and together they have the move's records.
    ensures flows { IfOk result (λ told. AreToldFlows S.left S.faults captures.items
        old.now new.now moves.now told.items) }
    // Another number of captures than the reports have is always told.
    ensures number { length captures.items ≢ length old.now
        → result ≡ Err (Captures (length old.now) (length captures.items)) }
    // Each other fault stands in the first capture that isn't whole or has another number of records than the reports.
    ensures cause { IfErr result (HasCause S.left S.faults captures.items old.now) }
{
    if captures.len() != old.len() {
        return Err(FlowsFault::Captures {
            told: old.len() as u64,
            given: captures.len() as u64,
        });
    }
    let counts = count_captures(alloc, captures, old, new, moves)?;
    Ok(tell_all(alloc, &counts)?)
}
