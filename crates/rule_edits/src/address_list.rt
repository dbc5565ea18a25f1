ghost use Rattle.std.specs.Prelude.{◌≡◌, IfOk};
ghost use Rattle.rule_edits.specs.Addresses.{AreListed};
ghost use Rattle.rule_edits.specs.Apply as spec;

use fw_base::{Addr, OutOfMemory};
use std::alloc::Global;
use std::collections::BTreeSet;
use std::marker::Model;

/// Addresses in the order in which they were added, and beside them a tree of them, so that a question
/// takes logarithmic time. Contracts see it as the list.
#[derive(Drop)]
pub(crate) struct AddressList {
    addresses: Vec<Addr>,
    tree: BTreeSet<u32>,
}

impl Model for AddressList {
    ghost use Rattle.std.specs.Prelude.{List};
    ghost use Rattle.fw_base.specs.declared.address.Addr.{Addr};
    ghost use Rattle.rule_edits.specs.Addresses.{AreListed};

    ghost Value = { List Addr };

    ghost view = { λ l. l.addresses.items };

    ghost invariant = { λ l. AreListed l.addresses.items l.tree };
}

/// The tree of these addresses.
fn tree_of(alloc: Global, addresses: &[Addr]) -> Result<BTreeSet<u32>, OutOfMemory>
    ensures { IfOk result (λ tree. AreListed addresses.now tree) }
{
    let mut tree = BTreeSet::new(alloc);
    for address in addresses {
        tree.insert(address.0)?;
    }
    Ok(tree)
}

impl AddressList {
    /// The list of these addresses.
    pub(crate) fn of(alloc: Global, addresses: Vec<Addr>) -> Result<AddressList, OutOfMemory>
        ensures { IfOk result (λ list. list ≡ addresses.items) }
    {
        let tree = tree_of(alloc, addresses.as_slice())?;
        Ok(AddressList { addresses, tree })
    }

    /// Adds the address where it isn't there.
    pub(crate) fn add(self, address: Addr) -> Result<AddressList, OutOfMemory>
        ensures { IfOk result (λ list. list ≡ spec.with_address self address) }
    {
        if self.tree.contains(&address.0) {
            return Ok(self);
        }
        let AddressList {
            mut addresses,
            mut tree,
        } = self;
        tree.insert(address.0)?;
        addresses.push(address)?;
        Ok(AddressList { addresses, tree })
    }

    /// The addresses, in the memory that they have.
    pub(crate) fn into_vec(self) -> Vec<Addr>
        ensures { result.items ≡ self }
    {
        self.addresses
    }
}
