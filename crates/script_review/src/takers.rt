use crate::rule_parts::holds_of_all;
use fw_rule::{Action, Rule};
use std::sync::Arc;

/// Whether the rule's set is disabled.
fn is_disabled(rule: &Rule, disabled: u32) -> bool {
    rule.set < 32 && disabled >> u32::from(rule.set) & 1 == 1
}

/// Whether a rule goes on elsewhere than behind it.
fn jumps(action: &Action) -> bool {
    match action {
        Action::SkipTo(_) | Action::Call(_) => true,
        _ => false,
    }
}

/// Whether a rule ends the search of each packet that meets it.
fn takes_all(rule: &Rule) -> bool {
    match (&rule.action, &rule.body) {
        (Action::Allow | Action::Deny | Action::Reset | Action::Unreach(_), Some(body)) => {
            holds_of_all(body)
        }
        _ => false,
    }
}

/// The first rule that takes each packet, where no rule jumps over another: its place in the list.
pub(crate) fn first_taker(rules: &[Arc<Rule>], disabled: u32) -> Option<usize> {
    let mut taker = None;
    for (place, rule) in rules.iter().enumerate() {
        if is_disabled(rule, disabled) {
            continue;
        }
        if jumps(&rule.action) {
            return None;
        }
        if taker.is_none() && takes_all(rule) {
            taker = Some(place);
        }
    }
    taker
}

/// Whether a rule is met nowhere behind one that takes each packet.
pub(crate) fn is_beaten(rule: &Rule, disabled: u32) -> bool {
    rule.id > 0 && !is_disabled(rule, disabled)
}
