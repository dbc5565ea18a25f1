ghost use Rattle.std.specs.Prelude.{◌≡◌, IfOk, OnOk};
ghost use Rattle.std.specs.Arc.{arc_value};
ghost use Rattle.rule_edits.specs.Apply as spec;

use crate::address_list::AddressList;
use crate::owned::own_addresses;
use fw_base::{Addr, OutOfMemory};
use std::alloc::Global;
use std::sync::Arc;

/// Up to that many addresses are looked for one after the other, so that nothing is made of the list.
const FEW: usize = 16;

/// Adds the address where it isn't there.
fn add_address(locals: &mut Vec<Addr>, address: Addr) -> Result<(), OutOfMemory>
    ensures { OnOk result (locals.new.items ≡ spec.with_address locals.old.items address) }
{
    if locals.contains(&address) {
        Ok(())
    } else {
        locals.push(address)?;
        Ok(())
    }
}

/// Adds each address that isn't there: each is looked for in the whole list.
#[tactic(auto, unfolding(crate::specs::Apply::with_addresses))]
fn add_few(locals: &mut Vec<Addr>, addresses: &[Addr]) -> Result<(), OutOfMemory>
    ensures { OnOk result (locals.new.items ≡ spec.with_addresses locals.old.items addresses.now) }
{
    for address in addresses {
        add_address(locals, *address)?;
    }
    Ok(())
}

/// The same in the time that a tree over the list takes.
#[tactic(auto, unfolding(crate::specs::Apply::with_addresses))]
fn add_many(alloc: Global, locals: Vec<Addr>, addresses: &[Addr]) -> Result<Vec<Addr>, OutOfMemory>
    ensures { IfOk result (λ after. after.items ≡ spec.with_addresses locals.items addresses.now) }
{
    let mut list = AddressList::of(alloc, locals)?;
    for address in addresses {
        list = list.add(*address)?;
    }
    Ok(list.into_vec())
}

/// The addresses, and behind them each new one that isn't there.
pub(crate) fn with_addresses(
    alloc: Global,
    locals: Arc<Vec<Addr>>,
    addresses: &[Addr],
) -> Result<Arc<Vec<Addr>>, OutOfMemory>
    ensures { IfOk result (λ after. (arc_value after).items
        ≡ spec.with_addresses (arc_value locals).items addresses.now) }
{
    let mut owned = own_addresses(locals)?;
    if addresses.len() <= FEW {
        add_few(&mut owned, addresses)?;
        Ok(Arc::new(alloc, owned)?)
    } else {
        let after = add_many(alloc, owned, addresses)?;
        Ok(Arc::new(alloc, after)?)
    }
}
