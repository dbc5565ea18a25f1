ghost use Rattle.std.specs.Prelude.{◌≡◌, map};
ghost use Rattle.std.specs.Arc.{arc_value};
ghost use Rattle.std.specs.List.{list_all};
ghost use Rattle.std.specs.declared.alloc.Global.{Global};
ghost use Rattle.std.specs.declared.sync.Arc.{Arc};
ghost use Rattle.fw_rule.specs.declared.rule.Rule.{Rule};
ghost use Rattle.rule_gates.specs.Cacheable as spec;

use fw_rule::{Action, Rule};
use std::sync::Arc;

/// Whether a rule of this action that matches ends the search.
fn is_final(action: &Action) -> bool
    ensures { result ≡ spec.is_final action.now }
{
    match action {
        Action::Allow | Action::Deny | Action::Reset | Action::Unreach(_) | Action::CheckState(_) =>
            true,
        Action::Count | Action::SkipTo(_) | Action::Call(_) | Action::Return => false,
    }
}

fn is_final_rule(rule: &Arc<Rule>) -> bool
    ensures { result ≡ spec.is_final (arc_value rule.now).action }
{
    is_final(&rule.action)
}

fn are_final(rules: &[Arc<Rule>]) -> bool
    ensures { result ≡ list_all (λ (rule : Arc Rule Global). spec.is_final (arc_value rule).action)
        rules.now }
{
    rules.iter().all(is_final_rule)
}

/// Whether each of the rules ends the search where it matches: then a verdict of one packet can be kept for
/// those that are like it.
pub fn is_cacheable(rules: &[Arc<Rule>]) -> bool
    ensures { result ≡ spec.is_cacheable (map arc_value rules.now) }
{
    are_final(rules)
}
