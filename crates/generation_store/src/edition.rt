ghost use Rattle.std.specs.Prelude.{◌≡◌, ◌<◌, ℕ, IfOk, length, map, slice_index_or};
ghost use Rattle.std.specs.Arc.{arc_value};
ghost use Rattle.fw_rule.specs.declared.rule.Rule.{Rule};
ghost use Rattle.rule_chain.specs.Configuration.{HasRulesOf};
ghost use Rattle.generation_store.specs.Jumps as jumps;
ghost use Rattle.generation_store.specs.Placing.{ArePlaced, identity_of};
ghost use Rattle.generation_store.specs.Published as spec;
ghost use Rattle.generation_store.specs.Published.{AreFacts, IsEdition, IsBuilt};
ghost use Rattle.rule_gates.specs.Cacheable as cacheable;
ghost use Rattle.rule_gates.specs.Gates.{AreGates};

use crate::Jump;
use crate::gates::{new_gates, shared_gates};
use crate::index::{Index, index_of};
use crate::jumps::first_from;
use crate::placed::{Placed, by_identity, identities};
use fw_base::{Numbered, OutOfMemory};
use rule_chain::Config;
use rule_gates::Gates;
use state_asks::{Facts, FlowName};
use std::alloc::Global;
use std::marker::Model;
use std::sync::Arc;

/// A configuration that was published under a number, with what an evaluation asks of it. No call but
/// those that build one takes memory.
#[derive(Drop)]
pub struct Edition {
    number: u64,
    config: Config,
    facts: Facts,
    pub(crate) index: Arc<Index>,
}

impl Model for Edition {
    ghost use Rattle.std.specs.Arc.{arc_value};
    ghost use Rattle.generation_store.specs.Indexed.{IsIndexed};
    ghost use Rattle.generation_store.specs.Published.{Published};

    ghost Value = { Published };

    ghost view = { λ e. record { number = e.number; config = e.config; facts = e.facts } };

    ghost invariant = { λ e.
        IsIndexed (record { number = e.number; config = e.config; facts = e.facts })
        (arc_value e.index) };
}

impl Edition {
    /// The edition of this number, from 1, and configuration, in time n log n for n rules. Where memory
    /// is wanted the configuration is dropped.
    pub fn build(alloc: Global, number: u64, config: Config) -> Result<Arc<Edition>, OutOfMemory>
        ensures { IfOk result (λ edition. IsBuilt number config (arc_value edition)) }
    {
        let gates = new_gates(alloc, config.rules())?;
        with_gates(alloc, number, config, gates)
    }

    /// The same, behind another edition: where its gates are the same, both have one list of them.
    pub fn build_behind(
        alloc: Global,
        last: &Edition,
        number: u64,
        config: Config,
    ) -> Result<Arc<Edition>, OutOfMemory>
        ensures { IfOk result (λ edition. IsBuilt number config (arc_value edition)) }
    {
        let gates = shared_gates(alloc, &last.index.gates, config.rules())?;
        with_gates(alloc, number, config, gates)
    }

    /// The same, beside another edition that has the same rules and flow names, in constant time: both have
    /// one list of identities and all that an evaluation asks of the rules.
    pub fn build_beside(
        alloc: Global,
        last: &Edition,
        number: u64,
        config: Config,
    ) -> Result<Arc<Edition>, OutOfMemory>
        requires { HasRulesOf last.now.config config }
        ensures { IfOk result (λ edition. IsBuilt number config (arc_value edition)) }
    {
        let settings = config.settings();
        let facts = Facts {
            number,
            rules: last.facts.rules.clone()?,
            settings,
        };
        let edition = Edition {
            number,
            config,
            facts,
            index: Arc::try_clone(&last.index)?,
        };
        Ok(Arc::new(alloc, edition)?)
    }

    /// The number that it was published under.
    pub fn number(&self) -> u64
        ensures { result ≡ self.now.number }
    {
        self.number
    }

    /// Its configuration.
    pub fn config(&self) -> &Config
        ensures value { result.now ≡ self.now.config }
        ensures lawful { IsEdition self.now }
    {
        &self.config
    }

    /// What its publication tells the states.
    pub fn facts(&self) -> &Facts
        ensures value { result.now ≡ self.now.facts }
        ensures lawful { IsEdition self.now }
    {
        &self.facts
    }

    /// One jump for each rule, in their order.
    pub fn jumps(&self) -> &[Jump]
        ensures { result.now ≡ jumps.jumps_of self.now.config.rules }
    {
        &self.index.jumps
    }

    /// One gate for each rule, in their order: it admits each packet that an evaluation has to look at the
    /// rule for, whatever the tables, the host's addresses and the disabled sets.
    pub fn gates(&self) -> &Gates
        ensures { AreGates self.now.config.rules result.now }
    {
        &self.index.gates
    }

    /// Whether each of its rules ends the search where it matches, so that a verdict of one packet can be
    /// kept for those that are like it. It takes constant time.
    pub fn is_cacheable(&self) -> bool
        ensures { result ≡ cacheable.is_cacheable self.now.config.rules }
    {
        self.index.is_cacheable
    }

    /// The place of the first rule numbered so or higher; the list's length where there is none.
    pub fn first_from(&self, number: u16) -> usize
        ensures { result ≡ jumps.first_from number self.now.config.rules }
    {
        first_from(self.config.rules(), u32::from(number))
    }

    /// The place of the rule of this identity; `None` exactly where there is none.
    pub fn place_of(&self, id: u32) -> Option<usize>
        ensures { result ≡ spec.place_of_rule id self.now.config.rules }
    {
        match self.facts.rules.as_slice().binary_search(&id) {
            Ok(index) => Some(self.index.places[index] as usize),
            Err(_) => None,
        }
    }

    /// The flow name that the rule in this place looks up.
    pub fn name_of(&self, place: usize) -> FlowName
        requires { place < length self.now.config.rules }
        ensures { (d : Rule) → result
            ≡ spec.flow_name self.now.config.names (slice_index_or self.now.config.rules place d) }
    {
        self.index.names[place]
    }
}

/// The edition of this number and configuration, with these gates of its rules.
fn with_gates(
    alloc: Global,
    number: u64,
    config: Config,
    gates: Arc<Gates>,
) -> Result<Arc<Edition>, OutOfMemory>
    requires { AreGates config.rules (arc_value gates) }
    ensures { IfOk result (λ edition. IsBuilt number config (arc_value edition)) }
{
    let placed = by_identity(alloc, config.rules())?;
    let facts = facts_of(alloc, number, &config, &placed)?;
    let index = index_of(alloc, &config, &placed, gates)?;
    let edition = Edition {
        number,
        config,
        facts,
        index,
    };
    Ok(Arc::new(alloc, edition)?)
}

/// What the publication of this configuration under this number tells the states.
fn facts_of(
    alloc: Global,
    number: u64,
    config: &Config,
    placed: &[Placed],
) -> Result<Facts, OutOfMemory>
    requires { ArePlaced config.now.rules placed.now }
    ensures value { IfOk result (λ facts. AreFacts number config.now facts) }
    ensures rules { IfOk result (λ facts. facts.rules ≡ map identity_of placed.now) }
{
    Ok(Facts {
        number,
        rules: identities(alloc, placed)?,
        settings: config.settings(),
    })
}

impl Numbered for Edition {
    type Tag = Facts;

    type Label = Config;

    ghost number = { λ e. e.number };

    ghost tag = { λ e. e.facts };

    ghost name = { λ e. e.config };

    fn number(&self) -> u64 {
        self.number
    }
}
