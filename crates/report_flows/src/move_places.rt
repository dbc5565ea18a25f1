ghost use Rattle.std.specs.Prelude.{ℕ, IfOk};
ghost use Rattle.std.specs.HashMap.{get};
ghost use Rattle.report_moves.specs.Spans.{pair_eq};
ghost use Rattle.report_flows.specs.Counting as spec;

use fw_base::OutOfMemory;
use report_moves::Move;
use std::alloc::Global;
use std::collections::HashMap;

/// Where the moves of a capture stand among all, by what their records came to then and now.
pub(crate) fn places_of(
    alloc: Global,
    moves: &[Move],
    capture: u64,
) -> Result<HashMap<(u32, u32), usize>, OutOfMemory>
    ensures { IfOk result (λ places. (pair : ℕ × ℕ)
        → spec.IsPlaceOf moves.now capture pair (get pair_eq places pair)) }
{
    let mut places = HashMap::new(alloc);
    for (at, told) in moves.iter().enumerate() {
        if told.capture == capture {
            places.insert((told.was, told.is), at)?;
        }
    }
    Ok(places)
}
