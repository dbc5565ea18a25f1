ghost use Rattle.std.specs.Prelude.{◌≡◌, IfOk};
ghost use Rattle.eval_engine.specs.Encounter as spec;
ghost use Rattle.eval_engine.specs.declared.judgement.Cause.TheVariants as causes;
ghost use Rattle.eval_engine.specs.declared.judgement.Verdict.TheVariants as verdicts;
ghost use Rattle.evaluation_laws.specs.Runs as runs;
ghost use Rattle.evaluation_laws.specs.Story as told;
ghost use Rattle.evaluation_laws.specs.Views.{viewed_question, story_of};

use crate::encounter::rule_ref;
use crate::question::Question;
use crate::story::{Ending, Story, asked, hit, plainly};
use eval_engine::{Cause, Judgement, Verdict};
use fw_base::OutOfMemory;
use fw_rule::Rule;
use state_asks::{LAST_RULE, Op, Reply, RuleRef};

fn judgement_of(
    question: &Question<'_, '_>,
    verdict: Verdict,
    rule: RuleRef,
    cause: Cause,
) -> Judgement
    ensures { result ≡ runs.judgement_under (viewed_question question.now) verdict rule cause }
{
    Judgement {
        edition: question.edition.number(),
        verdict,
        rule,
        cause,
    }
}

/// Rule 65535 denies.
pub(crate) fn last_judgement(question: &Question<'_, '_>) -> Judgement
    ensures { result ≡ runs.last_judgement (viewed_question question.now) }
{
    judgement_of(question, Verdict::Deny, LAST_RULE, Cause::Rule)
}

/// An ask with no reply left.
pub(crate) fn open_at<'r>(question: &Question<'_, '_>, op: Op) -> Result<Story<'r>, OutOfMemory>
    ensures { IfOk result (λ story. story_of story
        ≡ told.story_with_ask op (told.plain_story (told.OpensAt op))) }
{
    asked(op, plainly(question.alloc, Ending::OpensAt(op)))
}

/// A reply that isn't one to its ask.
pub(crate) fn mistaken<'r>(question: &Question<'_, '_>, op: Op) -> Result<Story<'r>, OutOfMemory>
    ensures { IfOk result (λ story. story_of story
        ≡ told.story_with_ask op (told.plain_story told.Mistakes)) }
{
    asked(op, plainly(question.alloc, Ending::Mistakes))
}

/// The rule's action ends the search.
pub(crate) fn decided<'r>(
    question: &Question<'_, '_>,
    rule: &Rule,
    verdict: Verdict,
    replies: &'r [Reply],
) -> Result<Story<'r>, OutOfMemory>
    ensures { IfOk result (λ story. story_of story
        ≡ told.story_with_hit rule.now.counter
        (told.plain_story
        (told.Ends
        (runs.judgement_under (viewed_question question.now) verdict (spec.rule_ref rule.now) causes.Rule)
        replies.now))) }
{
    let judgement = judgement_of(question, verdict, rule_ref(rule), Cause::Rule);
    hit(
        rule.counter,
        plainly(question.alloc, Ending::Ends(judgement, replies)),
    )
}

/// The rule denies for want of a state.
pub(crate) fn refused<'r>(
    question: &Question<'_, '_>,
    op: Op,
    rule: &Rule,
    cause: Cause,
    replies: &'r [Reply],
) -> Result<Story<'r>, OutOfMemory>
    ensures { IfOk result (λ story. story_of story
        ≡ told.story_with_ask op
        (told.plain_story
        (told.Ends
        (runs.judgement_under (viewed_question question.now) verdicts.Deny (spec.rule_ref rule.now) cause)
        replies.now))) }
{
    let judgement = judgement_of(question, Verdict::Deny, rule_ref(rule), cause);
    asked(
        op,
        plainly(question.alloc, Ending::Ends(judgement, replies)),
    )
}
