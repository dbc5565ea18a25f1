ghost use Rattle.std.specs.Prelude.{◌≡◌, ◌+◌, ◌<◌, ◌≤◌, false, true, Some, IfOk, drop, length};
ghost use Rattle.fw_rule.specs.declared.action.Action.TheVariants as action;
ghost use Rattle.eval_engine.specs.Encounter as spec;
ghost use Rattle.eval_engine.specs.Place.{IsRuleAt};
ghost use Rattle.eval_engine.specs.Walk as walk;
ghost use Rattle.evaluation_laws.specs.Runs.{Meets, Tests, Acts};
ghost use Rattle.evaluation_laws.specs.Running.{IsRun};
ghost use Rattle.evaluation_laws.specs.Views.{viewed_question, seen_by, story_of};

use crate::encounter::{
    flow_of, install_by, is_disabled, is_held, lookup_by, lookup_flow, name_at, rule_at,
};
use crate::ends::{decided, last_judgement, mistaken, open_at, refused};
use crate::places::{first_behind, first_from, place_of, place_skipped};
use crate::question::Question;
use crate::searched::Searched;
use crate::story::{Ending, Story, asked, behind, hit, plainly};
use eval_engine::{Cause, MOST_CALLS, Verdict};
use fw_base::OutOfMemory;
use fw_rule::{Action, Rule, StateOpt};
use packet_headers::Flow;
use rule_gates::{is_check_state, state_of};
use state_asks::Reply;

/// The run from the rule in that place on.
#[cycle(runs)]
pub(crate) fn meet<'r>(
    question: &Question<'_, '_>,
    depth: usize,
    searched: &Searched,
    place: usize,
    replies: &'r [Reply],
) -> Result<Story<'r>, OutOfMemory>
    requires shallow { depth ≤ 16 }
    requires within { place ≤ length question.now.edition.now.config.rules }
    ensures { IfOk result (λ story.
        IsRun (viewed_question question.now) depth (seen_by searched.now)
        (Meets (drop place question.now.edition.now.config.rules)) replies.now (story_of story)) }
{
    let Some(rule) = rule_at(question, place) else {
        let last = Ending::Ends(last_judgement(question), replies);
        return Ok(plainly(question.alloc, last));
    };
    if is_disabled(question, rule) {
        return meet(question, depth, searched, place + 1, replies);
    }
    match lookup_flow(question, searched, place, rule) {
        Some(flow) => look(question, depth, searched, place, rule, flow, replies),
        None => test(question, depth, searched, place, rule, replies),
    }
}

/// The rule asks for a state of its name.
#[cycle(runs)]
fn look<'r>(
    question: &Question<'_, '_>,
    depth: usize,
    searched: &Searched,
    place: usize,
    rule: &Rule,
    flow: Flow,
    replies: &'r [Reply],
) -> Result<Story<'r>, OutOfMemory>
    requires shallow { depth ≤ 16 }
    requires there { IsRuleAt (viewed_question question.now) place rule.now }
    requires enabled { spec.is_disabled (viewed_question question.now) rule.now ≡ false }
    requires due { walk.lookup_flow (viewed_question question.now) (seen_by searched.now) rule.now
        ≡ Some flow }
    ensures { IfOk result (λ story.
        IsRun (viewed_question question.now) depth (seen_by searched.now)
        (Meets (drop place question.now.edition.now.config.rules)) replies.now (story_of story)) }
{
    let op = lookup_by(question, place, rule, flow);
    let Some((reply, left)) = replies.split_first() else {
        return open_at(question, op);
    };
    match reply {
        Reply::Found(_, maker) => match place_of(question, maker.id) {
            Some((at, found)) => {
                let story = act(question, depth, &Searched::done(), at, found, left)?;
                asked(op, story)
            }
            None => mistaken(question, op),
        },
        Reply::NotFound => {
            let searched = searched.with(name_at(question, place, rule));
            asked(op, test(question, depth, &searched, place, rule, left)?)
        }
        Reply::Created | Reply::Exists | Reply::LimitReached(_) | Reply::TableFull(_) => {
            mistaken(question, op)
        }
    }
}

/// The rule behind its lookup.
#[cycle(runs)]
fn test<'r>(
    question: &Question<'_, '_>,
    depth: usize,
    searched: &Searched,
    place: usize,
    rule: &Rule,
    replies: &'r [Reply],
) -> Result<Story<'r>, OutOfMemory>
    requires shallow { depth ≤ 16 }
    requires there { IsRuleAt (viewed_question question.now) place rule.now }
    ensures { IfOk result (λ story.
        IsRun (viewed_question question.now) depth (seen_by searched.now)
        (Tests rule.now (drop (place + 1) question.now.edition.now.config.rules)) replies.now
        (story_of story)) }
{
    if is_check_state(&rule.action) {
        return meet(question, depth, searched, place + 1, replies);
    }
    if !is_held(question, rule) {
        return meet(question, depth, searched, place + 1, replies);
    }
    let Some(state) = state_of(rule) else {
        return act(question, depth, searched, place, rule, replies);
    };
    match flow_of(question) {
        Some(flow) => install(question, depth, searched, place, rule, state, flow, replies),
        None => meet(question, depth, searched, place + 1, replies),
    }
}

/// The rule asks for a state of its own.
#[cycle(runs)]
fn install<'r>(
    question: &Question<'_, '_>,
    depth: usize,
    searched: &Searched,
    place: usize,
    rule: &Rule,
    state: &StateOpt,
    flow: Flow,
    replies: &'r [Reply],
) -> Result<Story<'r>, OutOfMemory>
    requires shallow { depth ≤ 16 }
    requires there { IsRuleAt (viewed_question question.now) place rule.now }
    requires plain { spec.is_check_state rule.now.action ≡ false }
    requires held { spec.is_rule_met (viewed_question question.now) rule.now ≡ true }
    requires made { spec.state_of rule.now ≡ Some state.now }
    requires flowing { spec.any_flow_of question.now.packet.now ≡ Some flow }
    ensures { IfOk result (λ story.
        IsRun (viewed_question question.now) depth (seen_by searched.now)
        (Tests rule.now (drop (place + 1) question.now.edition.now.config.rules)) replies.now
        (story_of story)) }
{
    let op = install_by(question, place, rule, state, flow);
    let Some((reply, left)) = replies.split_first() else {
        return open_at(question, op);
    };
    match reply {
        Reply::Created | Reply::Exists => {
            asked(op, act(question, depth, searched, place, rule, left)?)
        }
        Reply::LimitReached(count) => refused(question, op, rule, Cause::Limit(*count), left),
        Reply::TableFull(count) => refused(question, op, rule, Cause::Full(*count), left),
        Reply::Found(..) | Reply::NotFound => mistaken(question, op),
    }
}

/// The rule acts.
#[cycle(runs)]
fn act<'r>(
    question: &Question<'_, '_>,
    depth: usize,
    searched: &Searched,
    place: usize,
    rule: &Rule,
    replies: &'r [Reply],
) -> Result<Story<'r>, OutOfMemory>
    requires shallow { depth ≤ 16 }
    requires there { IsRuleAt (viewed_question question.now) place rule.now }
    ensures { IfOk result (λ story.
        IsRun (viewed_question question.now) depth (seen_by searched.now)
        (Acts rule.now (drop (place + 1) question.now.edition.now.config.rules)) replies.now
        (story_of story)) }
{
    match &rule.action {
        Action::Allow => decided(question, rule, Verdict::Allow, replies),
        Action::Deny => decided(question, rule, Verdict::Deny, replies),
        Action::Reset => decided(question, rule, Verdict::Reset, replies),
        Action::Unreach(code) => decided(question, rule, Verdict::Unreach(*code), replies),
        Action::Count | Action::CheckState(_) => {
            hit(
                rule.counter,
                meet(question, depth, searched, place + 1, replies)?,
            )
        }
        Action::SkipTo(number) => {
            let next = place_skipped(question, place, *number);
            hit(
                rule.counter,
                meet(question, depth, searched, next, replies)?,
            )
        }
        Action::Call(number) => call(question, depth, searched, place, rule, *number, replies),
        Action::Return => {
            if depth == 0 {
                hit(
                    rule.counter,
                    meet(question, depth, searched, place + 1, replies)?,
                )
            } else {
                let back = Ending::Returns(*searched, replies);
                hit(rule.counter, plainly(question.alloc, back))
            }
        }
    }
}

/// The rule calls the rules from the first one of this number on.
#[cycle(runs)]
fn call<'r>(
    question: &Question<'_, '_>,
    depth: usize,
    searched: &Searched,
    place: usize,
    rule: &Rule,
    number: u16,
    replies: &'r [Reply],
) -> Result<Story<'r>, OutOfMemory>
    requires shallow { depth ≤ 16 }
    requires there { IsRuleAt (viewed_question question.now) place rule.now }
    requires calling { rule.now.action ≡ action.Call number }
    ensures { IfOk result (λ story.
        IsRun (viewed_question question.now) depth (seen_by searched.now)
        (Acts rule.now (drop (place + 1) question.now.edition.now.config.rules)) replies.now
        (story_of story)) }
{
    if depth == MOST_CALLS {
        return hit(
            rule.counter,
            meet(question, depth, searched, place + 1, replies)?,
        );
    }
    let start = first_from(question, number);
    let inner = meet(question, depth + 1, searched, start, replies)?;
    match inner.ending {
        Ending::Returns(later, left) => {
            let next = first_behind(question, place, rule);
            let story = meet(question, depth, &later, next, left)?;
            hit(rule.counter, behind(inner, story)?)
        }
        Ending::Ends(..) | Ending::OpensAt(_) | Ending::Mistakes => hit(rule.counter, inner),
    }
}
