ghost use Rattle.std.specs.Prelude.{◌≡◌, ◌≤◌, ◌+◌, ◌∷◌, [], Ok, OnOk, true, false, length, map, slice_get};
ghost use Rattle.report_reading.specs.AskLines.{IsAsk, value_of_ask};
ghost use Rattle.report_reading.specs.Readings.{line_value};
ghost use Rattle.std.specs.Arc.{arc_value};
ghost use Rattle.std.specs.Option.{option_map};
ghost use Rattle.run_audit.specs.Replaying.{IsAskTold, IsEntered, AreNumbered, IsPublishedLast, IsPublishedNext, IsAskedLast, IsReplayed, IsAskInRange};
ghost use Rattle.state_journal.specs.Journal.{Journal, last_rules, with_publication};

use crate::told_asks::{are_told_alike, op_under};
use fw_base::{Kept, MOST_CAPTURES, OutOfMemory};
use generation_store::Edition;
use report_reading::{AskLine, Reading};
use state_asks::Op;
use state_journal::Book;
use std::sync::Arc;

/// Asks the states what a line tells, under the edition that was published last, and enters it with
/// their answer. Whether that is the ask and the answer that the line tells; where it isn't,
/// nothing is said of the book.
pub(crate) fn replay_ask(
    book: &mut Book,
    edition: &Edition,
    told: &AskLine<'_>,
) -> Result<bool, OutOfMemory>
    requires lanes { MOST_CAPTURES ≤ book.old.lanes }
    requires published { last_rules book.old.facts ≡ edition.now.facts.rules }
    requires told { IsAsk (told.now.name.now ∷ []) told.now.lane told.now.at told.now.op
        told.now.reply }
    ensures entered { result ≡ Ok true
        → IsEntered edition.now (value_of_ask told.now) book.old book.new }
    ensures wrong { result ≡ Ok false → (op : Op)
        → IsAskTold edition.now book.old.object (value_of_ask told.now) op → ⊥ }
{
    match op_under(edition, &told.op, told.name) {
        Some(op) => {
            let reply = book.ask(told.lane as u32, told.at, &op)?;
            Ok(are_told_alike(&reply, &told.reply))
        }
        None => Ok(false),
    }
}

/// Publishes the edition that is next, and enters its publication.
pub(crate) fn replay_publication(book: &mut Book, edition: &Edition) -> Result<(), OutOfMemory>
    requires next { edition.now.number ≡ length book.old.facts + 1 }
    ensures { OnOk result (book.new ≡ with_publication book.old edition.now.facts) }
{
    let facts = edition.facts().share()?;
    book.ready()?;
    book.publish(facts);
    Ok(())
}

/// The edition in this place.
pub(crate) fn edition_at(editions: &[Arc<Edition>], place: usize) -> Option<&Edition>
    ensures { option_map (λ edition. edition.now) result
        ≡ slice_get (map arc_value editions.now) place }
{
    match editions.get(place) {
        Some(edition) => Some(edition),
        None => None,
    }
}

/// Publishes the edition that is next, where it has this number, and says whether it has.
pub(crate) fn replay_published(
    book: &mut Book,
    editions: &[Arc<Edition>],
    number: u64,
) -> Result<bool, OutOfMemory>
    requires numbered { AreNumbered (map arc_value editions.now) }
    ensures published { result ≡ Ok true
        → IsPublishedNext (map arc_value editions.now) number book.old book.new }
    ensures wrong { result ≡ Ok false → (new : Journal)
        → IsPublishedNext (map arc_value editions.now) number book.old new → ⊥ }
{
    match edition_at(editions, book.facts().len()) {
        Some(edition) => {
            if edition.number() != number {
                return Ok(false);
            }
            replay_publication(book, edition)?;
            Ok(true)
        }
        None => Ok(false),
    }
}

/// Asks the states what a line tells, under the edition that was published last.
pub(crate) fn replay_asked(
    book: &mut Book,
    editions: &[Arc<Edition>],
    told: &AskLine<'_>,
) -> Result<bool, OutOfMemory>
    requires lanes { MOST_CAPTURES ≤ book.old.lanes }
    requires published { IsPublishedLast (map arc_value editions.now) book.old }
    requires told { IsAsk (told.now.name.now ∷ []) told.now.lane told.now.at told.now.op
        told.now.reply }
    ensures asked { result ≡ Ok true
        → IsAskedLast (map arc_value editions.now) (value_of_ask told.now) book.old book.new }
    ensures wrong { result ≡ Ok false → (new : Journal)
        → IsAskedLast (map arc_value editions.now) (value_of_ask told.now) book.old new → ⊥ }
{
    replay_ask(book, &editions[book.facts().len() - 1], told)
}

/// Takes in what a line tells: the states meet its publication or its ask. Whether the line tells
/// the next publication, or an ask and an answer that are so.
pub(crate) fn replay_line(
    book: &mut Book,
    editions: &[Arc<Edition>],
    told: &Reading<'_>,
) -> Result<bool, OutOfMemory>
    requires lanes { MOST_CAPTURES ≤ book.old.lanes }
    requires numbered { AreNumbered (map arc_value editions.now) }
    requires published { IsPublishedLast (map arc_value editions.now) book.old }
    requires told { IsAskInRange (line_value told.now) }
    ensures replayed { result ≡ Ok true
        → IsReplayed (map arc_value editions.now) (line_value told.now) book.old book.new }
    ensures wrong { result ≡ Ok false → (new : Journal)
        → IsReplayed (map arc_value editions.now) (line_value told.now) book.old new → ⊥ }
{
    match told {
        Reading::Published(number) => replay_published(book, editions, *number),
        Reading::Ask(told) => replay_asked(book, editions, told),
        Reading::Record(_) | Reading::Lane(_) | Reading::Other => Ok(true),
    }
}
