ghost use Rattle.std.specs.Prelude.{◌≡◌};
ghost use Rattle.std.specs.Option.{option_map};
ghost use Rattle.rule_gates.specs.Stateful as spec;

use fw_rule::{Action, Rule, StateOpt};

/// Whether the action is `check-state`.
pub fn is_check_state(action: &Action) -> bool
    ensures { result ≡ spec.is_check_state action.now }
{
    match action {
        Action::Allow
        | Action::Deny
        | Action::Reset
        | Action::Unreach(_)
        | Action::Count
        | Action::SkipTo(_)
        | Action::Call(_)
        | Action::Return => false,
        Action::CheckState(_) => true,
    }
}

/// The rule's `keep-state` or `limit`.
pub fn state_of(rule: &Rule) -> Option<&StateOpt>
    ensures { option_map (λ state. state.now) result ≡ spec.state_of rule.now }
{
    match &rule.body {
        Some(body) => body.state.as_ref(),
        None => None,
    }
}

/// Whether the rule looks packets up: by `check-state`, `keep-state` or `limit`.
pub fn looks_up(rule: &Rule) -> bool
    ensures { result ≡ spec.looks_up rule.now }
{
    is_check_state(&rule.action) || state_of(rule).is_some()
}
