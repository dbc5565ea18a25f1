ghost use Rattle.std.specs.Prelude.{◌≡◌, IfOk, map};
ghost use Rattle.std.specs.Arc.{arc_value};
ghost use Rattle.rule_chain.specs.Chain.{IsConfiguration};
ghost use Rattle.rule_gates.specs.Gates.{AreGates};
ghost use Rattle.generation_store.specs.Indexed.{IsIndexOf};
ghost use Rattle.generation_store.specs.Placing.{ArePlaced, identity_of};

use crate::Jump;
use crate::flow_names::flow_names;
use crate::jumps::jumps_of;
use crate::placed::{Placed, places};
use fw_base::OutOfMemory;
use rule_chain::Config;
use rule_gates::{Gates, is_cacheable};
use state_asks::FlowName;
use std::alloc::Global;
use std::sync::Arc;

/// What an evaluation asks of the rules of an edition and their flow names. Editions that have the same
/// rules and names may have one of them.
#[derive(Drop)]
pub(crate) struct Index {
    pub(crate) jumps: Vec<Jump>,
    /// The place of the rule of each identity, in the order of the identities.
    pub(crate) places: Vec<u32>,
    /// The flow name that each rule looks up.
    pub(crate) names: Vec<FlowName>,
    /// Indices whose rules have the same gates may have one list of them.
    pub(crate) gates: Arc<Gates>,
    /// Each rule ends the search where it matches.
    pub(crate) is_cacheable: bool,
}

/// The index of the configuration whose rules stand in these places, with these gates.
pub(crate) fn index_of(
    alloc: Global,
    config: &Config,
    placed: &[Placed],
    gates: Arc<Gates>,
) -> Result<Arc<Index>, OutOfMemory>
    requires placed { ArePlaced config.now.rules placed.now }
    requires gates { AreGates config.now.rules (arc_value gates) }
    ensures { IfOk result (λ index.
        IsIndexOf config.now.rules config.now.names (map identity_of placed.now) (arc_value index)) }
{
    let jumps = jumps_of(alloc, config.rules())?;
    let names = flow_names(alloc, config.names(), config.rules())?;
    let places = places(alloc, placed)?;
    let index = Index {
        jumps,
        places,
        names,
        gates,
        is_cacheable: is_cacheable(config.rules()),
    };
    Ok(Arc::new(alloc, index)?)
}
