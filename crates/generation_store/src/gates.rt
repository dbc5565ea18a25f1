ghost use Rattle.std.specs.Prelude.{◌≡◌, IfOk, map};
ghost use Rattle.std.specs.Arc.{arc_value};
ghost use Rattle.rule_gates.specs.Gates.{AreGates};

use fw_base::OutOfMemory;
use fw_rule::Rule;
use rule_gates::{Gate, Gates, are_same, gates_of};
use std::alloc::Global;
use std::sync::Arc;

/// The gates, with their hulls.
fn with_hulls(alloc: Global, gates: Vec<Gate>) -> Result<Arc<Gates>, OutOfMemory>
    ensures { IfOk result (λ made. arc_value made ≡ gates.items) }
{
    let gates = Gates::over(alloc, gates)?;
    Ok(Arc::new(alloc, gates)?)
}

/// The gates of the rules.
pub(crate) fn new_gates(alloc: Global, rules: &[Arc<Rule>]) -> Result<Arc<Gates>, OutOfMemory>
    ensures { IfOk result (λ gates. AreGates (map arc_value rules.now) (arc_value gates)) }
{
    let gates = gates_of(alloc, rules)?;
    with_hulls(alloc, gates)
}

/// The same: the list that is there, if it has the same gates; then no hulls are made.
pub(crate) fn shared_gates(
    alloc: Global,
    last: &Arc<Gates>,
    rules: &[Arc<Rule>],
) -> Result<Arc<Gates>, OutOfMemory>
    ensures { IfOk result (λ gates. AreGates (map arc_value rules.now) (arc_value gates)) }
{
    let gates = gates_of(alloc, rules)?;
    if are_same(last.as_slice(), &gates) {
        Ok(Arc::try_clone(last)?)
    } else {
        with_hulls(alloc, gates)
    }
}
