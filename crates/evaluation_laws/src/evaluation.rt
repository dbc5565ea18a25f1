ghost use Rattle.std.specs.Prelude.{◌≡◌, IfOk};
ghost use Rattle.eval_engine.specs.Evaluation as spec;
ghost use Rattle.eval_engine.specs.Question.{question_under};
ghost use Rattle.evaluation_laws.specs.Story as told;
ghost use Rattle.evaluation_laws.specs.Views.{ending_of, viewed_outcome};

use crate::question::Question;
use crate::running::meet;
use crate::searched::Searched;
use crate::story::Ending;
use eval_engine::Judgement;
use fw_base::{OutOfMemory, Port};
use generation_store::Edition;
use ip6_headers::AnyIp;
use rule_chain::law_of_configuration;
use state_asks::{Op, Reply};
use std::alloc::Global;
use std::collections::LinkedList;

/// How an evaluation with the replies to its asks ends.
#[derive(Clone, Copy, Debug, PartialEq, Eq)]
pub enum Outcome {
    /// It ended and used every reply.
    Whole(Judgement),
    /// It waits at an ask with no reply left.
    OpenAt(Op),
    /// A reply wasn't one to its ask, or was one too many.
    Neither,
}

/// What an evaluation comes to.
#[derive(Drop)]
pub struct Evaluation {
    /// Its asks, in order.
    pub asks: LinkedList<Op>,
    /// The counter numbers of its hits, in order.
    pub hits: LinkedList<u32>,
    pub outcome: Outcome,
}

/// Evaluates a packet that was captured there at that second, with these replies to its asks, rule after rule and
/// calls within calls. It is slow, and stands beside `begin` and `resume` to be compared with them.
pub fn evaluate(
    alloc: Global,
    edition: &Edition,
    packet: &AnyIp<'_>,
    port: &Port,
    second: u32,
    replies: &[Reply],
) -> Result<Evaluation, OutOfMemory>
    ensures asks { IfOk result (λ e. e.asks
        ≡ (spec.evaluate (question_under edition.now packet.now port.now second)
        replies.now).asks) }
    ensures hits { IfOk result (λ e. e.hits
        ≡ (spec.evaluate (question_under edition.now packet.now port.now second)
        replies.now).hits) }
    ensures outcome { IfOk result (λ e. viewed_outcome e.outcome
        ≡ (spec.evaluate (question_under edition.now packet.now port.now second)
        replies.now).outcome) }
{
    let question = Question {
        edition,
        packet,
        port,
        second,
        alloc,
    };
    law_of_configuration(edition.config());
    let story = meet(&question, 0, &Searched::none(), 0, replies)?;
    let outcome = outcome_by(&story.ending);
    Ok(Evaluation {
        asks: story.asks,
        hits: story.hits,
        outcome,
    })
}

/// Whole where the run ended and used every reply; a run outside of calls never returns.
fn outcome_by(ending: &Ending<'_>) -> Outcome
    ensures { viewed_outcome result ≡ told.outcome_by (ending_of ending.now) }
{
    match ending {
        Ending::Ends(judgement, left) => match left.split_first() {
            None => Outcome::Whole(*judgement),
            Some(_) => Outcome::Neither,
        },
        Ending::OpensAt(op) => Outcome::OpenAt(*op),
        Ending::Mistakes => Outcome::Neither,
        Ending::Returns(..) => Outcome::Neither,
    }
}
