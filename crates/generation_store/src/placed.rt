ghost use Rattle.std.specs.Prelude.{◌≡◌, ◌≤◌, IfOk, length, map};
ghost use Rattle.std.specs.Arc.{arc_value};
ghost use Rattle.rule_chain.specs.Chain.{AscendsFrom, HaveOwnIds};
ghost use Rattle.generation_store.specs.Placing.{ArePlaced, identity_of, placed_from};

use fw_base::OutOfMemory;
use fw_rule::Rule;
use state_asks::Identities;
use std::alloc::Global;
use std::sync::Arc;

/// Where the rule of an identity stands.
#[derive(Clone, Copy)]
pub(crate) struct Placed {
    pub(crate) identity: u32,
    pub(crate) place: u32,
}

/// The places of the rules, in the order of the rules.
fn in_rule_order(alloc: Global, rules: &[Arc<Rule>]) -> Result<Vec<Placed>, OutOfMemory>
    requires few { length rules.now ≤ 65535 }
    ensures { IfOk result (λ placed. placed.items ≡ placed_from 0 (map arc_value rules.now)) }
{
    let mut placed = Vec::with_capacity(alloc, rules.len())?;
    for rule in rules {
        let place = placed.len() as u32;
        placed.push(Placed {
            identity: rule.id,
            place,
        })?;
    }
    Ok(placed)
}

/// The places of the rules, in the order of their identities.
pub(crate) fn by_identity(alloc: Global, rules: &[Arc<Rule>]) -> Result<Vec<Placed>, OutOfMemory>
    requires few { length rules.now ≤ 65535 }
    requires ordered { AscendsFrom 1 (map arc_value rules.now) }
    requires distinct { HaveOwnIds (map arc_value rules.now) }
    ensures { IfOk result (λ placed. ArePlaced (map arc_value rules.now) placed.items) }
{
    let mut placed = in_rule_order(alloc, rules)?;
    placed.sort_by_key(|rule| rule.identity)?;
    Ok(placed)
}

/// The identities alone.
pub(crate) fn identities(alloc: Global, placed: &[Placed]) -> Result<Identities, OutOfMemory>
    ensures { IfOk result (λ identities. identities ≡ map (λ p. p.identity) placed.now) }
{
    let mut identities = Vec::with_capacity(alloc, placed.len())?;
    for rule in placed {
        identities.push(rule.identity)?;
    }
    Identities::new(alloc, identities)
}

/// The places alone.
pub(crate) fn places(alloc: Global, placed: &[Placed]) -> Result<Vec<u32>, OutOfMemory>
    ensures { IfOk result (λ places. places.items ≡ map (λ p. p.place) placed.now) }
{
    let mut places = Vec::with_capacity(alloc, placed.len())?;
    for rule in placed {
        places.push(rule.place)?;
    }
    Ok(places)
}
