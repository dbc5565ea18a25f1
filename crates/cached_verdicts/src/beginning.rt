ghost use Rattle.std.specs.Prelude.{◌≡◌, ℕ, ◌<◌, ◌≤◌, ◌⊎◌, Some, [], List, length, find, OnOk, OnErr, IfOk};
ghost use Rattle.counter_book.specs.declared.tally.Count.{Count};
ghost use Rattle.fw_base.specs.declared.port.Port.{Port};
ghost use Rattle.fw_rule.specs.declared.rule.Rule.{Rule};
ghost use Rattle.packet_headers.specs.Fields.{Fields};
ghost use Rattle.ip6_headers.specs.declared.any_ip.AnyIp.TheVariants.{Four};
ghost use Rattle.rule_chain.specs.Chain.{IsConfiguration};
ghost use Rattle.generation_store.specs.Published.{is_identity};
ghost use Rattle.verdict_cache.specs.Cache.{WasMissed};
ghost use Rattle.eval_engine.specs.Evaluation.{evaluate};
ghost use Rattle.eval_engine.specs.Question.{Question, question_under};
ghost use Rattle.eval_engine.specs.Standing.{StandsAt};
ghost use Rattle.eval_engine.specs.declared.paused.Paused.{Paused};
ghost use Rattle.cached_verdicts.specs.LaneCache.{with_value, IsVisited, IsToKeep};
ghost use Rattle.cached_verdicts.specs.Verdicts.{evaluated_at_once, KeepsVerdicts};
ghost use Rattle.cached_verdicts.specs.Visits.{visit_of};

use crate::KeptVerdict;
use counter_book::Tally;
use eval_engine::{Judgement, Paused, Question, begin};
use fw_base::OutOfMemory;
use generation_store::Edition;
use ip6_headers::AnyIp;
use rule_chain::law_of_configuration;
use verdict_cache::{Key, VerdictCache};

/// What an evaluation that began comes to, if it ends with no ask, and whether the cache told it.
#[derive(Clone, Copy)]
pub(crate) struct Begun {
    pub(crate) judged: Option<Judgement>,
    pub(crate) is_hit: bool,
}

/// Begins the evaluation of a packet with a look into the cache, which a packet of IPv6 passes by. What the
/// cache doesn't know is evaluated, and kept where it may be.
pub(crate) fn begin_by_cache(
    kept: &mut VerdictCache<KeptVerdict>,
    question: &Question<'_, '_, '_>,
    paused: &mut Paused,
    tally: &mut Tally,
) -> Result<Begun, OutOfMemory>
    requires fitted { question.now.edition.config.greatest_counter < length tally.old }
    requires kept { KeepsVerdicts question.now.edition question.now.port kept.old }
    ensures stands { IfOk result (λ begun.
        StandsAt question.now [] [] tally.old begun.judged paused.new tally.new) }
    ensures visited { IfOk result (λ begun.
        IsVisited (visit_of question.now) begun.is_hit kept.old kept.new) }
    ensures kept { KeepsVerdicts question.now.edition question.now.port kept.new }
    ensures room { kept.new.capacity ≡ kept.old.capacity }
    ensures given { (kept.new ≡ kept.old) ⊎ (kept.new.number ≡ Some question.now.edition.number) }
{
    let packet = question.packet();
    let AnyIp::Four(ip) = packet else {
        let judged = begin(question, paused, tally);
        return Ok(Begun {
            judged,
            is_hit: false,
        });
    };
    let edition = question.edition();
    law_of_configuration(edition.config());
    let key = Key::of(ip);
    match kept.look(edition.number(), key) {
        Some(verdict) => {
            tally.hit(verdict.counter, packet.total());
            Ok(Begun {
                judged: Some(verdict.judgement),
                is_hit: true,
            })
        }
        None => {
            let judged = begin(question, paused, tally);
            keep(
                kept,
                edition.number(),
                key,
                verdict_to_keep(edition, judged),
            )?;
            Ok(Begun {
                judged,
                is_hit: false,
            })
        }
    }
}

/// Keeps the value, if there is one, for a key that the look before didn't find.
fn keep(
    kept: &mut VerdictCache<KeptVerdict>,
    number: u64,
    key: Key,
    verdict: Option<KeptVerdict>,
) -> Result<(), OutOfMemory>
    requires { WasMissed number key kept.old }
    ensures kept { OnOk result (kept.new ≡ with_value key verdict kept.old) }
    ensures unchanged { OnErr result (kept.new ≡ kept.old) }
{
    match verdict {
        Some(verdict) => kept.keep(number, key, verdict),
        None => Ok(()),
    }
}

/// What is to be kept of the evaluation of an IPv4 packet that has come to this with no reply: nothing
/// where it asks, or where some rule of the edition doesn't end the search.
fn verdict_to_keep(edition: &Edition, judged: Option<Judgement>) -> Option<KeptVerdict>
    ensures { (packet : Fields) (port : Port) (second : ℕ) (start tally : List Count)
        (paused : Paused)
        → StandsAt (question_under edition.now (Four packet) port second) [] [] start judged
        paused tally
        → IsToKeep (question_under edition.now (Four packet) port second) result }
{
    if !edition.is_cacheable() {
        return None;
    }
    match judged {
        Some(judgement) => verdict_by_rule(edition, judgement),
        None => None,
    }
}

/// The judgement with the counter of its rule; none where the edition hasn't the rule.
fn verdict_by_rule(edition: &Edition, judgement: Judgement) -> Option<KeptVerdict>
    ensures lawful { IsConfiguration edition.now.config }
    ensures found { (rule : Rule)
        → find (is_identity judgement.rule.id) edition.now.config.rules ≡ Some rule
        → result ≡ Some (record { judgement = judgement; counter = rule.counter }) }
{
    let rules = edition.config().rules();
    let place = edition.place_of(judgement.rule.id)?;
    Some(KeptVerdict {
        judgement,
        counter: rules[place].counter,
    })
}
