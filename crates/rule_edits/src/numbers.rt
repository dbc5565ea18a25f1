ghost use Rattle.std.specs.Prelude.{◌≡◌, map};
ghost use Rattle.std.specs.Arc.{arc_value};
ghost use Rattle.fw_rule.specs.declared.rule.Rule.{Rule};
ghost use Rattle.rule_edits.specs.Behind.{IsPlaceBehind};
ghost use Rattle.rule_chain.specs.Chain.{AscendsFrom};
ghost use Rattle.rule_edits.specs.Rules as lists;

use fw_rule::Rule;
use std::sync::Arc;

/// How many of the rules have that number or a lower one: the place behind these. It takes logarithmic
/// time.
pub(crate) fn place_behind(rules: &[Arc<Rule>], number: u16) -> usize
    requires { AscendsFrom 1 (map arc_value rules.now) }
    ensures { IsPlaceBehind (λ rule. (arc_value {X = Rule} rule).number) rules.now number result }
{
    rules.partition_point(|rule| rule.number <= number)
}

/// Whether some rule has the number. It takes logarithmic time.
pub(crate) fn has_rule(rules: &[Arc<Rule>], number: u16) -> bool
    requires { AscendsFrom 1 (map arc_value rules.now) }
    ensures { result ≡ lists.has_rule (map arc_value rules.now) number }
{
    let place = place_behind(rules, number);
    if place == 0 {
        false
    } else {
        rules[place - 1].number == number
    }
}
