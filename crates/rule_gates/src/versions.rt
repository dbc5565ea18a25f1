ghost use Rattle.std.specs.Prelude.{◌≡◌};
ghost use Rattle.rule_gates.specs.Covers as covers;
ghost use Rattle.rule_gates.specs.Told as spec;

use fw_rule::Family;

/// The version that is asked for twice: the first one, but for where that is every version.
pub(crate) fn narrower(asked: Family, other: Family) -> Family
    ensures { result ≡ covers.narrower asked other }
{
    match asked {
        Family::AnyIp => other,
        Family::Four => Family::Four,
        Family::Six => Family::Six,
    }
}

/// Whether packets of IPv4 are of the version.
pub(crate) fn has_four(asked: Family) -> bool
    ensures { result ≡ spec.has_four asked }
{
    match asked {
        Family::AnyIp | Family::Four => true,
        Family::Six => false,
    }
}
