ghost use Rattle.std.specs.Prelude.{◌≡◌, ◌+◌, ◌<◌, ◌≤◌, false, MatchOption, drop, length};
ghost use Rattle.generation_store.specs.Published.{has_identity};
ghost use Rattle.rule_chain.specs.Chain.{AscendsFrom};
ghost use Rattle.eval_engine.specs.Place.{IsRuleAt};
ghost use Rattle.evaluation_laws.specs.Runs.{rules_from};
ghost use Rattle.evaluation_laws.specs.Running.{IsMaker};
ghost use Rattle.evaluation_laws.specs.Views.{viewed_question};

use crate::encounter::rule_at;
use crate::question::Question;
use fw_rule::Rule;

/// The place of the first rule numbered so or higher.
pub(crate) fn first_from(question: &Question<'_, '_>, number: u16) -> usize
    ensures within { result ≤ length question.now.edition.now.config.rules }
    ensures there { drop result question.now.edition.now.config.rules
        ≡ rules_from number question.now.edition.now.config.rules }
{
    question.edition.first_from(number)
}

/// The place of the first rule behind that one that is numbered so or higher.
pub(crate) fn place_skipped(question: &Question<'_, '_>, place: usize, number: u16) -> usize
    requires within { place < length question.now.edition.now.config.rules }
    requires few { place < 65535 }
    requires ordered { AscendsFrom 1 question.now.edition.now.config.rules }
    ensures within { result ≤ length question.now.edition.now.config.rules }
    ensures later { place < result }
    ensures there { drop result question.now.edition.now.config.rules
        ≡ rules_from number (drop (place + 1) question.now.edition.now.config.rules) }
{
    let next = place + 1;
    next.max(question.edition.first_from(number))
}

/// The place of the first rule of a greater number than the rule in that place.
pub(crate) fn first_behind(question: &Question<'_, '_>, place: usize, rule: &Rule) -> usize
    requires { IsRuleAt (viewed_question question.now) place rule.now }
    ensures within { result ≤ length question.now.edition.now.config.rules }
    ensures later { place < result }
    ensures there { drop result question.now.edition.now.config.rules
        ≡ rules_from (rule.now.number + 1) question.now.edition.now.config.rules }
{
    match rule.number.checked_add(1) {
        Some(next) => question.edition.first_from(next),
        None => question.edition.config().rules().len(),
    }
}

/// The rule of this identity and its place.
pub(crate) fn place_of<'a>(question: &Question<'a, '_>, id: u32) -> Option<(usize, &'a Rule)>
    ensures { MatchOption result (has_identity question.now.edition.now.config.rules id ≡ false)
        (λ r. IsMaker (viewed_question question.now) id r.0 r.1.now) }
{
    let place = question.edition.place_of(id)?;
    let rule = rule_at(question, place)?;
    Some((place, rule))
}
