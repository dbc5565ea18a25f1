ghost use Rattle.std.specs.Prelude.{◌≡◌, true, List};
ghost use Rattle.fw_rule.specs.declared.rule.Rule.{Rule};
ghost use Rattle.rule_gates.specs.Gates.{AreGates};

use crate::Gate;

/// Whether the two lists have the same gates, place by place: then both are gates of the same rules.
pub fn are_same(gates: &[Gate], others: &[Gate]) -> bool
    ensures same { result ≡ true → (rules : List Rule) → AreGates rules others.now
        → AreGates rules gates.now }
    ensures told { gates.now ≡ others.now → result ≡ true }
{
    gates == others
}
