ghost use Rattle.std.specs.Prelude.{◌≡◌, ◌+◌, ◌<◌, ◌^◌, [], length, IfOk, OnOk};
ghost use Rattle.rule_chain.specs.Chain.{IsConfiguration};
ghost use Rattle.eval_engine.specs.Question.{question_under};
ghost use Rattle.eval_engine.specs.Standing.{StandsAt};
ghost use Rattle.fw_world.specs.Caches.{IsPortFor, IsTrueFor, IsCacheBehind, IsCacheAfter};
ghost use Rattle.fw_world.specs.LaneSteps.{LaneEvaluates};

use crate::asks_book::AsksBook;
use crate::lane_work::LaneWork;
use cached_verdicts::LaneCache;
use counter_book::Tally;
use eval_engine::{Judgement, Paused, Question, begin, resume};
use fw_base::{OutOfMemory, Port};
use ip6_headers::AnyIp;

/// Begins the evaluation of a packet, by a look into the lane's cache where it has one.
#[inline(always)]
fn begin_beside(
    cache: &mut Option<LaneCache>,
    question: &Question<'_, '_, '_>,
    paused: &mut Paused,
    tally: &mut Tally,
) -> Result<Option<Judgement>, OutOfMemory>
    requires fitted { question.now.edition.config.greatest_counter < length tally.old }
    requires port { IsPortFor cache.old question.now.port }
    requires kept { IsTrueFor question.now.edition cache.old }
    ensures stands { IfOk result (λ judged.
        StandsAt question.now [] [] tally.old judged paused.new tally.new) }
    ensures cache { IsCacheBehind question.now.edition question.now.port cache.old cache.new }
    ensures seen { OnOk result (IsCacheAfter question.now cache.old cache.new) }
{
    match cache {
        Some(cache) => cache.begin(question, paused, tally),
        None => Ok(begin(question, paused, tally)),
    }
}

impl LaneWork {
    /// Evaluates a packet for the lane's next record, by a look into its cache where it has one, and asks the
    /// states as often as the evaluation does. Where memory is wanted the asks that were made stay.
    #[tactic(auto, using(crate::proofs::Running::asks_nothing))]
    pub(crate) fn evaluate<'x, B: AsksBook>(
        &mut self,
        book: &mut B,
        lane: u32,
        packet: &'x AnyIp<'_>,
        port: &'x Port,
        second: u32,
    ) -> Result<Judgement, OutOfMemory>
        requires lane { B.serves book.old lane }
        requires lawful { IsConfiguration (B.edition book.old).config }
        requires fitted { (B.edition book.old).config.greatest_counter < length self.old.tally }
        requires port { IsPortFor self.old.cache port.now }
        requires kept { IsTrueFor (B.edition book.old) self.old.cache }
        ensures evaluated { LaneEvaluates B.enters B.misses book.old book.new lane
            (question_under (B.edition book.old) packet.now port.now second) self.old self.new result }
        ensures unentered { self.new ≡ record self.old {
          tally = self.new.tally;
          cache = self.new.cache;
        } }
    {
        let at = self.docket.entries().len() as u64 + 1;
        let tally = &mut self.tally;
        let mut paused = Paused::new();
        let question = Question::new(book.edition(), packet, port, second);
        let mut judged = begin_beside(&mut self.cache, &question, &mut paused, tally)?;
        loop {
            match judged {
                Some(judgement) => return Ok(judgement),
                None => {
                    entered_fits(book);
                    let reply = book.ask(lane, at, paused.ask())?;
                    let question = Question::new(book.edition(), packet, port, second);
                    judged = resume(&question, &mut paused, reply, tally);
                }
            }
        }
    }
}

/// Does nothing, and says that a u64 counts the asks: each raises the count, so an evaluation ends.
fn entered_fits<B: AsksBook>(book: &B)
    ensures { B.entered book.now < 2 ^ 64 }
{
    let _entered = book.entered();
}
