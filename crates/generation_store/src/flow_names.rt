ghost use Rattle.std.specs.Prelude.{◌≡◌, ◌<◌, ◌≤◌, IfOk, IfSome, length, map, nat_eq, position};
ghost use Rattle.std.specs.Arc.{arc_value};
ghost use Rattle.std.specs.Cmp.Lexicographic.{pointwise};
ghost use Rattle.std.specs.List.{AllByRecursion};
ghost use Rattle.rule_chain.specs.Names as rule_names;
ghost use Rattle.rule_chain.specs.Names.{IsNamed};
ghost use Rattle.generation_store.specs.Published as spec;

use fw_base::{Name, OutOfMemory};
use fw_rule::Rule;
use rule_chain::flow_name_of;
use state_asks::FlowName;
use std::alloc::Global;
use std::sync::Arc;

/// Where the name stands among the flow names.
fn place_in(names: &[Name], name: &Name) -> Option<usize>
    ensures { result ≡ position (λ other. pointwise nat_eq other name.now) names.now }
{
    names.iter().position(|other| other == name)
}

/// The number of the name: its place among the flow names.
fn number_of(names: &[Name], name: &Name) -> usize
    ensures { result ≡ rule_names.number_of_name names.now name.now }
{
    place_in(names, name).unwrap_or(names.len())
}

/// The flow name that a rule looks up.
fn flow_name(names: &[Name], rule: &Rule) -> FlowName
    requires few { length names.now ≤ 64 }
    requires named { IsNamed names.now rule.now }
    ensures { result ≡ spec.flow_name names.now rule.now }
{
    match flow_name_of(&rule.action, &rule.body) {
        Some(name) => FlowName::Named(number_of(names, name) as u8),
        None => FlowName::Any,
    }
}

/// The flow name that each rule looks up.
pub(crate) fn flow_names(
    alloc: Global,
    names: &[Name],
    rules: &[Arc<Rule>],
) -> Result<Vec<FlowName>, OutOfMemory>
    requires few { length names.now ≤ 64 }
    requires named { AllByRecursion (IsNamed names.now) (map arc_value rules.now) }
    ensures { IfOk result (λ looked_up. looked_up.items
        ≡ map (spec.flow_name names.now) (map arc_value rules.now)) }
{
    let mut looked_up = Vec::with_capacity(alloc, rules.len())?;
    for rule in rules {
        looked_up.push(flow_name(names, rule))?;
    }
    Ok(looked_up)
}
