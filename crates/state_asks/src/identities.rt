ghost use Rattle.std.specs.Prelude.{◌≡◌, IfOk};

use fw_base::OutOfMemory;
use std::alloc::Global;
use std::marker::Model;
use std::sync::Arc;

/// The identities of an edition's rules. Several editions may have one list at once, in any threads, and
/// none of them changes it. Contracts see it as the identities themselves.
#[derive(Clone, Debug, Drop)]
pub struct Identities {
    identities: Arc<Vec<u32>>,
}

impl Model for Identities {
    ghost use Rattle.std.specs.Prelude.{ℕ, List};
    ghost use Rattle.std.specs.Arc.{arc_value};

    ghost Value = { List ℕ };

    ghost view = { λ i. (arc_value i.identities).items };
}

impl Identities {
    /// The list of these identities.
    pub fn new(alloc: Global, identities: Vec<u32>) -> Result<Identities, OutOfMemory>
        ensures { IfOk result (λ list. list ≡ identities.items) }
    {
        Ok(Identities {
            identities: Arc::new(alloc, identities)?,
        })
    }

    /// The identities, in order.
    pub fn as_slice(&self) -> &[u32]
        ensures { result.now ≡ self.now }
    {
        self.identities.as_slice()
    }
}
