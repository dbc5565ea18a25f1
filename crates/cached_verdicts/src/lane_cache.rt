ghost use Rattle.std.specs.Prelude.{◌≡◌, ◌<◌, ◌≤◌, ◌⊎◌, [], length, Some, IfSome, OnOk, OnErr, IfOk};
ghost use Rattle.generation_store.specs.Published.{Published};
ghost use Rattle.eval_engine.specs.Standing.{StandsAt};
ghost use Rattle.cached_verdicts.specs.LaneCache.{empty_lane_cache, IsPortOf, IsTrueUnder, IsLookedInto, SeesPacket, HasRecent};

use crate::KeptVerdict;
use crate::beginning::begin_by_cache;
use counter_book::Tally;
use eval_engine::{Judgement, Paused, Question};
use fw_base::{MOST_VERDICTS, OutOfMemory, Port};
use std::alloc::Global;
use std::marker::Model;
use verdict_cache::VerdictCache;

/// The cache of one lane, whose packets are captured at one port, and how many of its packets were hits.
#[derive(Drop)]
pub struct LaneCache {
    /// Where the packets so far were captured, none before the first.
    port: Option<Port>,
    kept: VerdictCache<KeptVerdict>,
    hits: u64,
}

impl Model for LaneCache {
    ghost use Rattle.cached_verdicts.specs.LaneCache.{LaneCacheValue};

    ghost Value = { LaneCacheValue };

    ghost view = { λ c. record { port = c.port; kept = c.kept; hits = c.hits } };
}

/// The same port, by a name of its own.
fn same_port(port: &Port) -> Result<Port, OutOfMemory>
    ensures { IfOk result (λ same. same ≡ port.now) }
{
    Ok(Port {
        direction: port.direction,
        interface: port.interface.clone()?,
    })
}

/// Notes where a packet was captured, where it is the first.
fn note_port(own: &mut Option<Port>, port: &Port) -> Result<(), OutOfMemory>
    requires { IfSome own.old (λ seen. seen ≡ port.now) }
    ensures noted { OnOk result (own.new ≡ Some port.now) }
    ensures unchanged { OnErr result (own.new ≡ own.old) }
{
    if own.is_none() {
        *own = Some(same_port(port)?);
    }
    Ok(())
}

impl LaneCache {
    /// An empty cache for at most `capacity` verdicts, with no hit.
    pub fn open(alloc: Global, capacity: u32) -> Result<LaneCache, OutOfMemory>
        requires { (1 ≤ capacity) × (capacity ≤ MOST_VERDICTS) }
        ensures empty { IfOk result (λ lane. lane ≡ empty_lane_cache capacity) }
        ensures kept { IfOk result (λ lane. (edition : Published) → IsTrueUnder edition lane) }
        ensures recent { IfOk result (λ lane. HasRecent capacity [] lane) }
    {
        Ok(LaneCache {
            port: None,
            kept: VerdictCache::open(alloc, capacity)?,
            hits: 0,
        })
    }

    /// Begins the evaluation of a packet as `begin` of `eval_engine` does, to its first ask or to its end. A
    /// packet of IPv4 whose key is kept for this edition is a hit: its rule is counted, and it is judged with
    /// no rule looked at. The judgement of another one is kept where it may be. Want of memory for it, or for
    /// the name of the port of the first packet, is an error.
    pub fn begin(
        &mut self,
        question: &Question<'_, '_, '_>,
        paused: &mut Paused,
        tally: &mut Tally,
    ) -> Result<Option<Judgement>, OutOfMemory>
        requires fitted { question.now.edition.config.greatest_counter < length tally.old }
        requires port { IsPortOf self.old question.now.port }
        requires kept { IsTrueUnder question.now.edition self.old }
        ensures stands { IfOk result (λ judged.
            StandsAt question.now [] [] tally.old judged paused.new tally.new) }
        ensures behind { (self.new ≡ self.old)
            ⊎ IsLookedInto question.now.edition question.now.port self.old self.new }
        ensures looked { OnOk result
            (IsLookedInto question.now.edition question.now.port self.old self.new) }
        ensures seen { OnOk result (SeesPacket question.now self.old self.new) }
    {
        note_port(&mut self.port, question.port())?;
        let begun = begin_by_cache(&mut self.kept, question, paused, tally)?;
        if begun.is_hit {
            self.hits = self.hits.saturating_add(1);
        }
        Ok(begun.judged)
    }

    /// How many of the packets were hits; it stands still at 2^64 - 1.
    pub fn hits(&self) -> u64
        ensures { result ≡ self.now.hits }
    {
        self.hits
    }
}
