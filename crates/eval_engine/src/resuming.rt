ghost use Rattle.std.specs.Prelude.{◌≡◌, ◌<◌, [], ◌∷◌, ◌++◌, List, None, length, drop};
ghost use Rattle.state_asks.specs.declared.op.Op.{Op};
ghost use Rattle.state_asks.specs.declared.reply.Reply.{Reply};
ghost use Rattle.counter_book.specs.declared.tally.Count.{Count};
ghost use Rattle.eval_engine.specs.Question.{rules_of};
ghost use Rattle.eval_engine.specs.Standing.{StandsAt, AnswersOpenAsk, IsTallyFor, asked_by, callers_of, seen_by};
ghost use Rattle.eval_engine.specs.Steps.{LeadsOn};
ghost use Rattle.eval_engine.specs.Trace.{Seen};
ghost use Rattle.eval_engine.specs.Walk as definition;

use crate::encounter::{name_at, rule_at};
use crate::position::{Position, Step};
use crate::searched::Searched;
use crate::walking::{act, judgement_at, test, walk};
use crate::{Cause, Judgement, Paused, Question, Verdict};
use counter_book::Tally;
use rule_gates::key_of;
use state_asks::Reply;

/// Goes on with an evaluation that waits for this reply, to its next ask or to its end. The question is the one
/// that it began with. It takes no memory.
pub fn resume(
    question: &Question<'_, '_, '_>,
    paused: &mut Paused,
    reply: Reply,
    tally: &mut Tally,
) -> Option<Judgement>
    requires fitted { question.now.edition.config.greatest_counter < length tally.old }
    requires answered { AnswersOpenAsk question.now paused.old reply }
    ensures { (asks : List Op) (replies : List Reply) (start : List Count)
        → StandsAt question.now asks replies start None paused.old tally.old
        → StandsAt question.now (asks ++ asked_by paused.old ∷ []) (replies ++ reply ∷ []) start result
        paused.new tally.new }
{
    search_on(question, paused, &reply);
    let searched = &paused.searched;
    let at = &mut paused.position;
    match answered(question, searched, reply, at, tally) {
        Step::On => {
            let key = key_of(question.packet);
            walk(question, &key, searched, at, tally)
        }
        Step::Decides(verdict, cause) => Some(judgement_at(question, at.place, verdict, cause)),
        Step::Waits => None,
    }
}

/// Notes what the reply tells of names that were looked up.
fn search_on(question: &Question<'_, '_, '_>, paused: &mut Paused, reply: &Reply)
    ensures seen { seen_by paused.new.searched
        ≡ definition.seen_after question.now (seen_by paused.old.searched)
        (drop paused.old.position.place (rules_of question.now)) reply.now }
    ensures stays { paused.new.position ≡ paused.old.position }
{
    match reply {
        Reply::Found(..) => paused.searched.end(),
        Reply::NotFound => add_name_at(question, paused),
        Reply::Created | Reply::Exists | Reply::LimitReached(_) | Reply::TableFull(_) => {}
    }
}

/// The name of the rule that asked joins.
fn add_name_at(question: &Question<'_, '_, '_>, paused: &mut Paused)
    ensures seen { seen_by paused.new.searched
        ≡ definition.with_name_at question.now (seen_by paused.old.searched)
        (drop paused.old.position.place (rules_of question.now)) }
    ensures stays { paused.new.position ≡ paused.old.position }
{
    let place = paused.position.place;
    if let Some(rule) = rule_at(question, place) {
        paused.searched.add(name_at(question, place, rule));
    }
}

/// The place of the rule that made the state.
fn place_of(question: &Question<'_, '_, '_>, id: u32) -> usize
    ensures { drop result (rules_of question.now)
        ≡ definition.suffix_of id (rules_of question.now) }
{
    match question.edition.place_of(id) {
        Some(place) => place,
        None => question.rules().len(),
    }
}

/// The first rule from that place on acts.
fn act_at(
    question: &Question<'_, '_, '_>,
    searched: &Searched,
    at: &mut Position,
    tally: &mut Tally,
) -> Step
    requires { IsTallyFor question.now tally.old }
    ensures { LeadsOn question.now searched.now
        (definition.acts_from question.now (seen_by searched.now) (callers_of at.old.callers)
        (drop at.old.place (rules_of question.now))) result at.new tally.old tally.new }
{
    match rule_at(question, at.place) {
        Some(rule) => act(question, at, rule, tally),
        None => Step::Decides(Verdict::Deny, Cause::Rule),
    }
}

/// The first rule from that place on, behind its lookup.
fn test_at(
    question: &Question<'_, '_, '_>,
    searched: &Searched,
    at: &mut Position,
    tally: &mut Tally,
) -> Step
    requires { IsTallyFor question.now tally.old }
    ensures { LeadsOn question.now searched.now
        (definition.tests_from question.now (seen_by searched.now) (callers_of at.old.callers)
        (drop at.old.place (rules_of question.now))) result at.new tally.old tally.new }
{
    match rule_at(question, at.place) {
        Some(rule) => test(question, searched, at, rule, tally),
        None => Step::Decides(Verdict::Deny, Cause::Rule),
    }
}

/// Where the reply to the ask of the rule in that place leads.
fn answered(
    question: &Question<'_, '_, '_>,
    searched: &Searched,
    reply: Reply,
    at: &mut Position,
    tally: &mut Tally,
) -> Step
    requires { IsTallyFor question.now tally.old }
    ensures { LeadsOn question.now searched.now
        (definition.leads_to question.now (seen_by searched.now) (callers_of at.old.callers)
        (drop at.old.place (rules_of question.now)) reply) result at.new tally.old tally.new }
{
    match reply {
        Reply::Found(_, rule) => {
            at.place = place_of(question, rule.id);
            act_at(question, searched, at, tally)
        }
        Reply::NotFound => test_at(question, searched, at, tally),
        Reply::Created | Reply::Exists => act_at(question, searched, at, tally),
        Reply::LimitReached(count) => Step::Decides(Verdict::Deny, Cause::Limit(count)),
        Reply::TableFull(count) => Step::Decides(Verdict::Deny, Cause::Full(count)),
    }
}
