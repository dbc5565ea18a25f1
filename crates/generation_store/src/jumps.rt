ghost use Rattle.std.specs.Prelude.{◌≡◌, ◌<◌, ◌≤◌, IfOk, length, map, slice_index_or};
ghost use Rattle.std.specs.Arc.{arc_value};
ghost use Rattle.fw_rule.specs.declared.rule.Rule.{Rule};
ghost use Rattle.rule_chain.specs.Chain.{AscendsFrom};
ghost use Rattle.generation_store.specs.Jumps as spec;

use fw_base::OutOfMemory;
use fw_rule::{Action, Rule};
use std::alloc::Global;
use std::sync::Arc;

/// The place of the first rule numbered so or higher, by halves.
pub(crate) fn first_from(rules: &[Arc<Rule>], number: u32) -> usize
    requires { AscendsFrom 1 (map arc_value rules.now) }
    ensures value { result ≡ spec.first_from number (map arc_value rules.now) }
    ensures within { result ≤ length rules.now }
{
    rules.partition_point(|rule| u32::from(rule.number) < number)
}

/// Where the search goes on at a rule of this action in this place.
fn target(rules: &[Arc<Rule>], place: usize, action: &Action) -> usize
    requires ordered { AscendsFrom 1 (map arc_value rules.now) }
    requires within { place < length rules.now }
    ensures value { result ≡ spec.target (map arc_value rules.now) place action.now }
    ensures within { result ≤ length rules.now }
{
    let next = place + 1;
    match action {
        Action::SkipTo(number) => next.max(first_from(rules, u32::from(*number))),
        Action::Call(number) => first_from(rules, u32::from(*number)),
        Action::Allow
        | Action::Deny
        | Action::Reset
        | Action::Unreach(_)
        | Action::Count
        | Action::Return
        | Action::CheckState(_) => next,
    }
}

/// The jump of the rule in this place.
fn jump_of(rules: &[Arc<Rule>], place: usize) -> Jump
    requires ordered { AscendsFrom 1 (map arc_value rules.now) }
    requires few { length rules.now ≤ 65535 }
    requires within { place < length rules.now }
    ensures { (d : Rule) → result
        ≡ spec.jump_of (map arc_value rules.now) place
        (slice_index_or (map arc_value rules.now) place d) }
{
    let rule = &rules[place];
    Jump {
        target: target(rules, place, &rule.action) as u32,
        after: first_from(rules, u32::from(rule.number) + 1) as u32,
    }
}

/// One jump for each rule.
pub(crate) fn jumps_of(alloc: Global, rules: &[Arc<Rule>]) -> Result<Vec<Jump>, OutOfMemory>
    requires ordered { AscendsFrom 1 (map arc_value rules.now) }
    requires few { length rules.now ≤ 65535 }
    ensures { IfOk result (λ jumps. jumps.items ≡ spec.jumps_of (map arc_value rules.now)) }
{
    let mut jumps = Vec::with_capacity(alloc, rules.len())?;
    for place in 0..rules.len() {
        jumps.push(jump_of(rules, place))?;
    }
    Ok(jumps)
}

/// Where the search goes on behind a rule, as places in the list of rules.
#[derive(Clone, Copy)]
pub struct Jump {
    /// For `skipto N` and `call N` the first rule numbered N or higher, for `skipto` behind its own
    /// place; for others the next place. The list's length stands for its end.
    pub target: u32,
    /// The first rule of a greater number than its own.
    pub after: u32,
}
