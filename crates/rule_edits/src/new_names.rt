ghost use Rattle.std.specs.Prelude.{◌≡◌, [], ◌∷◌, ◌++◌, Ok, IfOk, IfErr};
ghost use Rattle.std.specs.Arc.{arc_value};
ghost use Rattle.rule_chain.specs.Names.{name_of};
ghost use Rattle.rule_edits.specs.Answers.{IsRefusal};
ghost use Rattle.rule_edits.specs.NewNames as spec;

use crate::ApplyFault;
use crate::owned::own_names;
use fw_base::{Name, OutOfMemory};
use fw_rule::{Action, Body};
use rule_chain::{MOST_NAMES, flow_name_of};
use std::alloc::Global;
use std::sync::Arc;

/// Whether the name has a number.
fn has_number(names: &[Name], name: &Name) -> bool
    ensures { result ≡ spec.is_listed names.now name.now }
{
    names.iter().any(|other| other == name)
}

/// The names, and behind them this one.
fn with_new_name(
    alloc: Global,
    names: Arc<Vec<Name>>,
    name: &Name,
) -> Result<Arc<Vec<Name>>, OutOfMemory>
    ensures { IfOk result (λ after. (arc_value after).items
        ≡ (arc_value names).items ++ name.now ∷ []) }
{
    let mut owned = own_names(names)?;
    owned.push(name.clone()?)?;
    Ok(Arc::new(alloc, owned)?)
}

/// Gives the name the next number where it has none.
fn with_name(
    alloc: Global,
    names: Arc<Vec<Name>>,
    name: &Name,
) -> Result<Arc<Vec<Name>>, ApplyFault>
    ensures ok { IfOk result (λ after. spec.with_name (arc_value names).items name.now
        ≡ Ok (arc_value after).items) }
    ensures err { IfErr result (λ fault.
        IsRefusal fault (spec.with_name (arc_value names).items name.now)) }
{
    if has_number(names.as_slice(), name) {
        return Ok(names);
    }
    if names.len() >= MOST_NAMES {
        return Err(ApplyFault::TooManyNames);
    }
    Ok(with_new_name(alloc, names, name)?)
}

/// Gives the flow name that a rule of this action and body names the next number, where it has none.
#[tactic(auto, unfolding(crate::specs::NewNames::with_name_of))]
pub(crate) fn with_name_of(
    alloc: Global,
    names: Arc<Vec<Name>>,
    action: &Action,
    body: &Option<Body>,
) -> Result<Arc<Vec<Name>>, ApplyFault>
    ensures ok { IfOk result (λ after.
        spec.with_name_of (arc_value names).items (name_of action.now body.now)
        ≡ Ok (arc_value after).items) }
    ensures err { IfErr result (λ fault.
        IsRefusal fault
        (spec.with_name_of (arc_value names).items (name_of action.now body.now))) }
{
    match flow_name_of(action, body) {
        Some(name) => with_name(alloc, names, name),
        None => Ok(names),
    }
}
