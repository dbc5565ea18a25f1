ghost use Rattle.std.specs.Prelude.{◌≡◌, ◌≤◌, ◌+◌, true, length, IfOk, IfErr, OnOk};
ghost use Rattle.std.specs.Arc.{arc_value};
ghost use Rattle.fw_rule.specs.WellFormed.{IsWellFormed};
ghost use Rattle.fw_world.specs.CommitFaults.{IsCauseOf};
ghost use Rattle.fw_world.specs.Editions.{IsNextEdition};
ghost use Rattle.rule_edits.specs.Changing.{IsChanging};
ghost use Rattle.shared_world.specs.DeskKept.{AreShares};

use fw_base::OutOfMemory;
use fw_rule::Command;
use fw_world::{CommitFault, next_edition, share_edition};
use generation_store::{Edition, Store};
use state_asks::Facts;
use std::alloc::Global;
use std::sync::Arc;

/// The next edition with all that its publication takes: a share for each processor, and its facts.
#[derive(Drop)]
pub(crate) struct NextEdition {
    pub(crate) number: u64,
    pub(crate) edition: Arc<Edition>,
    pub(crate) shares: Vec<Arc<Edition>>,
    pub(crate) facts: Facts,
}

/// Shares of the edition, one for each of so many processors.
pub(crate) fn shares_of(
    alloc: Global,
    edition: &Arc<Edition>,
    count: u32,
) -> Result<Vec<Arc<Edition>>, OutOfMemory>
    ensures { IfOk result (λ shares. AreShares (arc_value edition.now) count shares.items) }
{
    let mut shares = Vec::with_capacity(alloc, count as usize)?;
    for _index in 0..count {
        shares.push(share_edition(edition)?)?;
    }
    Ok(shares)
}

/// What the command makes of the last edition, with shares for so many processors and with room in the
/// store. All memory of its publication but the book's is taken here.
pub(crate) fn prepared(
    alloc: Global,
    store: &mut Store,
    lanes: u32,
    command: &Command,
) -> Result<NextEdition, CommitFault>
    requires begun { 1 ≤ length store.old.editions }
    requires command { IsWellFormed command.now }
    requires changing { IsChanging command.now }
    ensures next { IfOk result (λ next.
        IsNextEdition store.old.editions command.now (arc_value next.edition)) }
    ensures number { IfOk result (λ next. next.number ≡ length store.old.editions + 1) }
    ensures shares { IfOk result (λ next.
        AreShares (arc_value next.edition) lanes next.shares.items) }
    ensures facts { IfOk result (λ next. next.facts ≡ (arc_value next.edition).facts) }
    ensures room { OnOk result (store.new.ready ≡ true) }
    ensures cause { IfErr result (IsCauseOf store.old.editions command.now) }
    ensures unchanged { store.new.editions ≡ store.old.editions }
{
    let edition = next_edition(alloc, store.all(), command)?;
    let facts = edition.facts().share()?;
    let shares = shares_of(alloc, &edition, lanes)?;
    store.ready()?;
    Ok(NextEdition {
        number: edition.number(),
        edition,
        shares,
        facts,
    })
}
