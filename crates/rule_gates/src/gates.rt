ghost use Rattle.std.specs.Prelude.{◌≡◌, ◌-◌, IfOk, length, map};
ghost use Rattle.std.specs.Arc.{arc_value};
ghost use Rattle.rule_gates.specs.Gates.{AreGates};
ghost use Rattle.rule_gates.specs.Hulls.{covered};

use crate::Gate;
use crate::gate_making::gate_of;
use crate::hull_making::hulls_of;
use fw_base::OutOfMemory;
use fw_rule::Rule;
use std::alloc::Global;
use std::marker::Model;
use std::sync::Arc;

/// So many gates in a row stand under one hull, and so many hulls under one top.
pub(crate) const BLOCK: usize = 32;

/// Gates, and over them hulls, by which a search passes over many of them at once. Contracts see the gates.
#[derive(Drop)]
pub struct Gates {
    pub(crate) gates: Vec<Gate>,
    /// Over each thirty-two gates, all but the last one, a gate that admits whatever any of them admits.
    pub(crate) hulls: Vec<Gate>,
    /// The same over each thirty-two hulls.
    pub(crate) tops: Vec<Gate>,
}

impl Model for Gates {
    ghost use Rattle.std.specs.Prelude.{List};
    ghost use Rattle.rule_gates.specs.Hulls.{AreHulls, covered};
    ghost use Rattle.rule_gates.specs.declared.gate.Gate.{Gate};

    ghost Value = { List Gate };

    ghost view = { λ g. g.gates.items };

    ghost invariant = { λ g.
        AreHulls (covered g.gates.items) g.hulls.items × AreHulls g.hulls.items g.tops.items };
}

impl Gates {
    /// The gates with their hulls.
    pub fn over(alloc: Global, gates: Vec<Gate>) -> Result<Gates, OutOfMemory>
        ensures { IfOk result (λ made. made ≡ gates.items) }
    {
        let hulls = hulls_of(alloc, all_but_last(&gates))?;
        let tops = hulls_of(alloc, &hulls)?;
        Ok(Gates { gates, hulls, tops })
    }

    /// The gates alone.
    pub fn as_slice(&self) -> &[Gate]
        ensures { result.now ≡ self.now }
    {
        &self.gates
    }

    /// Those that stand under hulls.
    pub(crate) fn covered(&self) -> &[Gate]
        ensures are { result.now ≡ covered self.now }
        ensures fewer { length result.now ≡ length self.now - 1 }
    {
        all_but_last(&self.gates)
    }
}

/// The gates under hulls. The last one is that of the last rule, which holds of every packet: the hulls over it
/// would admit all that the others shut out.
fn all_but_last(gates: &[Gate]) -> &[Gate]
    ensures are { result.now ≡ covered gates.now }
    ensures fewer { length result.now ≡ length gates.now - 1 }
{
    &gates[..gates.len().saturating_sub(1)]
}

/// The gates of the rules, in their order.
pub fn gates_of(alloc: Global, rules: &[Arc<Rule>]) -> Result<Vec<Gate>, OutOfMemory>
    ensures { IfOk result (λ gates. AreGates (map arc_value rules.now) gates.items) }
{
    let mut gates = Vec::with_capacity(alloc, rules.len())?;
    for rule in rules {
        gates.push(gate_of(rule))?;
    }
    Ok(gates)
}
