ghost use Rattle.std.specs.Prelude.{◌≡◌};
ghost use Rattle.report_page.specs.Shares as spec;

use crate::{Piece, put};
use fw_base::OutOfMemory;
use report_values::CountedRule;

/// The number of the rule at the end of each list.
const LAST_RULE: u16 = 65535;

/// How much of so many parts a share takes.
pub fn share(part: u64, whole: u64, parts: u64) -> u64
    ensures { result ≡ spec.share_of part whole parts }
{
    part.saturating_mul(parts) / whole.max(1)
}

/// How many packets the rules counted.
pub fn packets_of(rules: &[CountedRule<'_>]) -> u64
    ensures { result ≡ spec.packets_of rules.now }
{
    let mut packets: u64 = 0;
    for rule in rules {
        packets = packets.saturating_add(rule.packets);
    }
    packets
}

/// What rule 65535 counted of a rule's packets.
fn last_part(rule: &CountedRule<'_>) -> u64
    ensures { result ≡ spec.last_part rule.now }
{
    if rule.number == LAST_RULE {
        rule.packets
    } else {
        0
    }
}

/// How many packets rule 65535 counted.
pub fn last_packets(rules: &[CountedRule<'_>]) -> u64
    ensures { result ≡ spec.last_packets rules.now }
{
    let mut packets: u64 = 0;
    for rule in rules {
        packets = packets.saturating_add(last_part(rule));
    }
    packets
}

fn is_never_met(rule: &CountedRule<'_>) -> bool
    ensures { result ≡ spec.is_never_met rule.now }
{
    rule.packets == 0
}

/// How many rules counted nothing.
pub fn never_met(rules: &[CountedRule<'_>]) -> usize
    ensures { result ≡ spec.never_met rules.now }
{
    rules.iter().filter(|rule| is_never_met(rule)).count()
}

/// Puts a share in percent, with one digit behind the point.
pub(crate) fn put_percent(
    pieces: &mut Vec<Piece<'_>>,
    part: u64,
    whole: u64,
) -> Result<(), OutOfMemory> {
    let share = share(part, whole, 1000);
    put(
        pieces,
        &[
            Piece::Figure(share / 10),
            Piece::Markup(b"."),
            Piece::Figure(share % 10),
            Piece::Markup(b" %"),
        ],
    )
}
