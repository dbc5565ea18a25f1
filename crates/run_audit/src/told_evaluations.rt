ghost use Rattle.std.specs.Prelude.{◌≡◌, ◌<◌, true, length, Some, IfSome, OnSome};
ghost use Rattle.eval_engine.specs.Evaluation.{evaluate};
ghost use Rattle.eval_engine.specs.Question.{question_under};
ghost use Rattle.eval_engine.specs.Standing.{counts_after};
ghost use Rattle.ip6_headers.specs.Either.{total_of};
ghost use Rattle.run_audit.specs.ToldEvaluations as spec;

use counter_book::Tally;
use eval_engine::{Judgement, Paused, Question, begin, is_reply_to, resume};
use fw_base::Port;
use generation_store::Edition;
use ip6_headers::AnyIp;
use state_asks::{Op, Reply};

/// Whether both are one ask.
fn is_same(asked: &Op, told: &Op) -> bool
    ensures same { result ≡ true → asked.now ≡ told.now }
    ensures all { asked.now ≡ told.now → result ≡ true }
{
    asked == told
}

/// The judgement to which the evaluation of a packet comes with the replies that are told, where it
/// makes exactly the asks that are told; `None` where it doesn't, and then some of its hits may be
/// counted.
pub(crate) fn evaluate_told(
    edition: &Edition,
    packet: &AnyIp<'_>,
    port: &Port,
    second: u32,
    told: &[(Op, Reply)],
    tally: &mut Tally,
) -> Option<Judgement>
    requires fitted { edition.now.config.greatest_counter < length tally.old }
    ensures judged { IfSome result
        (spec.ComesTo (question_under edition.now packet.now port.now second) told.now) }
    ensures counted { OnSome result (tally.new ≡ counts_after (total_of packet.now)
        (evaluate (question_under edition.now packet.now port.now second)
        (spec.replies_told told.now)).hits tally.old) }
    ensures only { (judgement : Judgement)
        → spec.ComesTo (question_under edition.now packet.now port.now second) told.now judgement
        → result ≡ Some judgement }
{
    let question = Question::new(edition, packet, port, second);
    let mut paused = Paused::new();
    let mut judged = begin(&question, &mut paused, tally);
    for ask in told {
        if judged.is_some() {
            return None;
        }
        if !is_same(paused.ask(), &ask.0) {
            return None;
        }
        if !is_reply_to(edition, paused.ask(), &ask.1) {
            return None;
        }
        judged = resume(&question, &mut paused, ask.1, tally);
    }
    judged
}
