ghost use Rattle.std.specs.Prelude.{◌≡◌, IfOk, replicate};

use fw_base::{Numbered, OutOfMemory};
use state_asks::Facts;
use std::alloc::Global;

/// An edition that is what its publication tells the states.
#[derive(Debug, Drop)]
pub struct FactsEdition {
    pub facts: Facts,
}

impl Numbered for FactsEdition {
    type Tag = Facts;

    type Label = u64;

    ghost number = { λ e. e.facts.number };

    ghost tag = { λ e. e.facts };

    ghost name = { λ e. e.facts.number };

    fn number(&self) -> u64 {
        self.facts.number
    }
}

/// An edition of these facts for each of so many processors.
pub fn editions_of(
    alloc: Global,
    facts: &Facts,
    processors: u32,
) -> Result<Vec<FactsEdition>, OutOfMemory>
    ensures { IfOk result (λ editions. editions.items
        ≡ replicate processors (record { facts = facts.now })) }
{
    let mut editions = Vec::with_capacity(alloc, processors as usize)?;
    for _ in 0..processors {
        let edition = FactsEdition {
            facts: facts.share()?,
        };
        editions.push(edition)?;
    }
    Ok(editions)
}
