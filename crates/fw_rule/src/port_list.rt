ghost use Rattle.std.specs.Prelude.{◌≡◌, IfOk};

use crate::Items;
use fw_base::{OutOfMemory, PortRange};
use std::alloc::Global;

/// The ports that a rule asks for: those of some range or, negated, those of none.
#[derive(Drop)]
pub struct PortList {
    pub negated: bool,
    pub ranges: Items<PortRange>,
}

impl PortList {
    /// The same ports, a second time.
    pub fn copy(&self, alloc: Global) -> Result<PortList, OutOfMemory>
        ensures { IfOk result (λ ports. ports ≡ self.now) }
    {
        Ok(PortList {
            negated: self.negated,
            ranges: Items::from_vec(Vec::from_slice(alloc, self.ranges.as_slice())?),
        })
    }
}
