ghost use Rattle.std.specs.Prelude.{◌≡◌, [], ◌∷◌, IfOk};
ghost use Rattle.std.specs.Option.{option_copied};
ghost use Rattle.fw_rule.specs.FlowName.{default_flow};
ghost use Rattle.rule_chain.specs.Names as spec;

use fw_base::{Name, OutOfMemory};
use fw_rule::{Action, Body, DEFAULT_FLOW, StateOpt};
use std::alloc::Global;

/// How many flow names a configuration may have, `default` among them.
pub const MOST_NAMES: usize = 64;

/// The flow names before any command: `default` alone.
pub(crate) fn first_names(alloc: Global) -> Result<Vec<Name>, OutOfMemory>
    ensures { IfOk result (λ names. names.items ≡ default_flow ∷ []) }
{
    let mut names = Vec::new(alloc);
    names.push(Name::new(alloc, DEFAULT_FLOW)?)?;
    Ok(names)
}

fn action_name(action: &Action) -> Option<&Name>
    ensures { option_copied result ≡ spec.action_name action.now }
{
    match action {
        Action::CheckState(Some(name)) => Some(name),
        Action::CheckState(None)
        | Action::Allow
        | Action::Deny
        | Action::Reset
        | Action::Unreach(_)
        | Action::Count
        | Action::SkipTo(_)
        | Action::Call(_)
        | Action::Return => None,
    }
}

fn state_name(state: &StateOpt) -> &Name
    ensures { result.now ≡ spec.state_name state.now }
{
    match state {
        StateOpt::Keep(name) | StateOpt::Limit(_, _, name) => name,
    }
}

fn body_name(body: &Option<Body>) -> Option<&Name>
    ensures { option_copied result ≡ spec.body_name body.now }
{
    match body {
        Some(asked) => match &asked.state {
            Some(state) => Some(state_name(state)),
            None => None,
        },
        None => None,
    }
}

/// The flow name that a rule of this action and body names, if any: that of its `check-state`, or of its
/// `keep-state` or `limit` (ipfw(8), "STATEFUL FIREWALL"). `check-state :any` names none.
pub fn flow_name_of<'x>(action: &'x Action, body: &'x Option<Body>) -> Option<&'x Name>
    ensures { option_copied result ≡ spec.name_of action.now body.now }
{
    match action_name(action) {
        Some(name) => Some(name),
        None => body_name(body),
    }
}
