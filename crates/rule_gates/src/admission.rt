ghost use Rattle.std.specs.Prelude.{◌≡◌};
ghost use Rattle.rule_gates.specs.Gates as spec;
ghost use Rattle.rule_gates.specs.Within as within;

use crate::{Gate, GateKey, Interval};
use fw_rule::Family;

/// Whether the interval has the number: one comparison, since a number below the low end wraps.
fn is_within(interval: &Interval, number: u32) -> bool
    ensures { result ≡ within.is_within interval.now number }
{
    number.wrapping_sub(interval.low) <= interval.span
}

fn admits_version(asked: Family, is_six: bool) -> bool
    ensures { result ≡ spec.admits_version asked is_six }
{
    match asked {
        Family::AnyIp => true,
        Family::Four => !is_six,
        Family::Six => is_six,
    }
}

/// Whether the gate tells all of its rule: that looks nothing up, and its body holds of each packet whose
/// key the gate admits.
pub fn is_exact(gate: &Gate) -> bool
    ensures { result ≡ spec.is_exact gate.now }
{
    gate.is_exact
}

/// Whether the gate admits the key. What most rules fail comes first.
#[tactic(auto, unfolding(crate::specs::Gates::admits))]
pub fn admits(gate: &Gate, key: &GateKey) -> bool
    ensures { result ≡ spec.admits gate.now key.now }
{
    is_within(&gate.source, key.source[usize::from(gate.source_word)])
        && (is_within(
            &gate.destination,
            key.destination[usize::from(gate.destination_word)],
        ) && (is_within(&gate.destination_ports, key.destination_port)
            && ((gate.protocol == 0 || gate.protocol == key.protocol)
                && (is_within(&gate.source_ports, key.source_port)
                    && admits_version(gate.family, key.is_six)))))
}
