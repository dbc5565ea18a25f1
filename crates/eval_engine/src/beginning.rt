ghost use Rattle.std.specs.Prelude.{◌<◌, [], length};
ghost use Rattle.eval_engine.specs.Standing.{StandsAt};

use crate::searched::Searched;
use crate::walking::walk;
use crate::{Judgement, Paused, Question};
use counter_book::Tally;
use rule_gates::key_of;

/// Begins the evaluation of a packet, and goes on to its end, or to its first ask: then there is no judgement
/// yet, and it waits for a reply. Each rule whose action runs is counted in the tally. It takes no memory.
pub fn begin(
    question: &Question<'_, '_, '_>,
    paused: &mut Paused,
    tally: &mut Tally,
) -> Option<Judgement>
    requires fitted { question.now.edition.config.greatest_counter < length tally.old }
    ensures { StandsAt question.now [] [] tally.old result paused.new tally.new }
{
    paused.searched = Searched::none();
    paused.position.restart();
    let key = key_of(question.packet);
    let searched = &paused.searched;
    let at = &mut paused.position;
    walk(question, &key, searched, at, tally)
}
