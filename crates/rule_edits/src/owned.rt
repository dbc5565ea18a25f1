ghost use Rattle.std.specs.Prelude.{◌≡◌, IfOk};
ghost use Rattle.std.specs.Arc.{arc_value};

use fw_base::{Addr, Name, OutOfMemory};
use fw_rule::{Rule, copy_body};
use lookup_tables::Tables;
use std::alloc::Global;
use std::sync::Arc;

fn copy_rule(alloc: Global, rule: &Rule) -> Result<Rule, OutOfMemory>
    ensures { IfOk result (λ copied. copied ≡ rule.now) }
{
    Ok(Rule {
        number: rule.number,
        set: rule.set,
        id: rule.id,
        counter: rule.counter,
        action: rule.action.clone()?,
        log: rule.log,
        body: copy_body(alloc, &rule.body)?,
    })
}

/// The rule itself where no one else has it, and else a copy.
pub(crate) fn own_rule(alloc: Global, rule: Arc<Rule>) -> Result<Rule, OutOfMemory>
    ensures { IfOk result (λ owned. owned ≡ arc_value rule) }
{
    match Arc::try_unwrap(rule) {
        Ok(owned) => Ok(owned),
        Err(shared) => copy_rule(alloc, &shared),
    }
}

/// The tables to change: themselves where no other configuration has them, and else a second list of the
/// same tables, not of copies.
pub(crate) fn own_tables(tables: Arc<Tables>) -> Result<Tables, OutOfMemory>
    ensures { IfOk result (λ owned. owned ≡ arc_value tables) }
{
    Ok(Arc::unwrap_or_clone(tables)?)
}

/// The flow names to change: themselves where no other configuration has them, and else a copy.
pub(crate) fn own_names(names: Arc<Vec<Name>>) -> Result<Vec<Name>, OutOfMemory>
    ensures { IfOk result (λ owned. owned.items ≡ (arc_value names).items) }
{
    Ok(Arc::unwrap_or_clone(names)?)
}

/// The addresses to change: themselves where no other configuration has them, and else a copy.
pub(crate) fn own_addresses(addresses: Arc<Vec<Addr>>) -> Result<Vec<Addr>, OutOfMemory>
    ensures { IfOk result (λ owned. owned.items ≡ (arc_value addresses).items) }
{
    Ok(Arc::unwrap_or_clone(addresses)?)
}
