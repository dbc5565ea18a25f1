ghost use Rattle.std.specs.Prelude.{◌≡◌, ◌≤◌, ◌∷◌, [], length, map, IfOk, IfErr};
ghost use Rattle.std.specs.Arc.{arc_value};
ghost use Rattle.fw_rule.specs.WellFormed.{IsWellFormed};
ghost use Rattle.generation_store.specs.Published.{IsBuilt};
ghost use Rattle.rule_edits.specs.Apply.{apply};
ghost use Rattle.rule_edits.specs.Changing.{IsChanging};
ghost use Rattle.fw_world.specs.CommitFaults.{IsCauseOf};
ghost use Rattle.fw_world.specs.Editions.{IsLastOf, IsNextEdition};

use crate::CommitFault;
use crate::commit_fault::refusal;
use fw_base::OutOfMemory;
use fw_rule::Command;
use generation_store::{Edition, Store};
use rule_chain::Config;
use rule_edits::{apply, touches_rules};
use std::alloc::Global;
use std::sync::Arc;

/// The last of these editions.
pub fn last_edition(editions: &[Arc<Edition>]) -> &Edition
    requires { 1 ≤ length editions.now }
    ensures { IsLastOf (map arc_value editions.now) result.now }
{
    &editions[editions.len() - 1]
}

/// A store of this edition alone.
pub fn store_of(alloc: Global, edition: Arc<Edition>) -> Result<Store, OutOfMemory>
    ensures { IfOk result (λ store. store.editions ≡ arc_value edition ∷ []) }
{
    let mut store = Store::new(alloc);
    store.ready()?;
    store.push(edition);
    Ok(store)
}

/// The edition of this number and of the configuration that the command made of the last one.
fn edition_after(
    alloc: Global,
    last: &Edition,
    number: u64,
    command: &Command,
    config: Config,
) -> Result<Arc<Edition>, OutOfMemory>
    requires { apply last.now.config command.now ≡ Ok config }
    ensures { IfOk result (λ edition. IsBuilt number config (arc_value edition)) }
{
    if touches_rules(command) {
        Edition::build_behind(alloc, last, number, config)
    } else {
        Edition::build_beside(alloc, last, number, config)
    }
}

/// What the command makes of the last of these editions, as the next one.
pub fn next_edition(
    alloc: Global,
    editions: &[Arc<Edition>],
    command: &Command,
) -> Result<Arc<Edition>, CommitFault>
    requires begun { 1 ≤ length editions.now }
    requires command { IsWellFormed command.now }
    requires changing { IsChanging command.now }
    ensures next { IfOk result (λ edition.
        IsNextEdition (map arc_value editions.now) command.now (arc_value edition)) }
    ensures cause { IfErr result (IsCauseOf (map arc_value editions.now) command.now) }
{
    let number = editions.len() as u64 + 1;
    let last = last_edition(editions);
    match apply(alloc, last.config(), command) {
        Ok(config) => Ok(edition_after(alloc, last, number, command, config)?),
        Err(fault) => Err(refusal(fault)),
    }
}

/// The same edition, and not a copy of it.
pub fn share_edition(edition: &Arc<Edition>) -> Result<Arc<Edition>, OutOfMemory>
    ensures { IfOk result (λ shared. arc_value shared ≡ arc_value edition.now) }
{
    Ok(Arc::try_clone(edition)?)
}
