ghost use Rattle.std.specs.Prelude.{◌≡◌, IfOk};

use crate::{AddrItem, Items};
use fw_base::OutOfMemory;
use std::alloc::Global;

/// The addresses that a rule asks for: those of some element or, negated, those of none.
#[derive(Drop)]
pub struct AddrSpec {
    pub negated: bool,
    pub items: Items<AddrItem>,
}

impl AddrSpec {
    /// The same addresses, a second time.
    pub fn copy(&self, alloc: Global) -> Result<AddrSpec, OutOfMemory>
        ensures { IfOk result (λ addresses. addresses ≡ self.now) }
    {
        let mut items = Vec::new(alloc);
        for item in self.items.as_slice() {
            items.push(item.clone()?)?;
        }
        Ok(AddrSpec {
            negated: self.negated,
            items: Items::from_vec(items),
        })
    }
}
