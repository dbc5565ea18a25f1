ghost use Rattle.std.specs.Prelude.{◌≡◌, ◌+◌, ◌<◌};
ghost use Rattle.rule_gates.specs.Covers.{CoversList, CoversPorts, IsExactPorts, TellsPorts};
ghost use Rattle.rule_gates.specs.Told.{are_told_ports};

use crate::Interval;
use crate::gate::PortGate;
use fw_base::PortRange;
use fw_rule::PortList;

fn range(asked: PortRange) -> Interval
    ensures low { result.low ≡ asked.low }
    ensures high { result.low + result.span ≡ asked.high }
    ensures most { asked.high < 65536 }
{
    Interval {
        low: u32::from(asked.low()),
        span: u32::from(asked.high() - asked.low()),
    }
}

/// The ports of a list: those of a single range, and every port where the list is negated or longer.
fn listed(asked: &PortList) -> PortGate
    ensures covers { CoversList asked.now result.numbers }
    ensures tells { TellsPorts (Some asked.now) result.numbers }
    ensures exact { IsExactPorts (Some asked.now) result }
    ensures told { result.is_exact ≡ are_told_ports (Some asked.now) }
{
    match asked.ranges.as_slice() {
        [only] if !asked.negated => PortGate {
            numbers: range(*only),
            is_exact: true,
        },
        _ => PortGate {
            numbers: Interval::every(),
            is_exact: false,
        },
    }
}

/// The ports that a rule asks for.
pub(crate) fn ports(asked: &Option<PortList>) -> PortGate
    ensures covers { CoversPorts asked.now result.numbers }
    ensures tells { TellsPorts asked.now result.numbers }
    ensures exact { IsExactPorts asked.now result }
    ensures told { result.is_exact ≡ are_told_ports asked.now }
{
    match asked {
        Some(list) => listed(list),
        None => PortGate {
            numbers: Interval::every(),
            is_exact: true,
        },
    }
}
