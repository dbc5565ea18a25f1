ghost use Rattle.std.specs.Prelude.{◌≡◌, None, Ok, Some, true, false, IfOk, map};
ghost use Rattle.std.specs.Arc.{arc_value};
ghost use Rattle.report_reading.specs.Readings.{line_value};
ghost use Rattle.run_audit.specs.JournalTold.{no_journal, with_line, with_next};
ghost use Rattle.run_audit.specs.Replaying.{AreNumbered, IsAskInRange};
ghost use Rattle.run_audit.specs.Telling.{IsBegunUnder, IsUnder, journal_of};
ghost use Rattle.state_journal.specs.Journal.{with_publication};

use crate::replaying::{edition_at, replay_line};
use fw_base::{MOST_CAPTURES, OutOfMemory};
use generation_store::Edition;
use report_reading::Reading;
use state_journal::Book;
use std::alloc::Global;
use std::sync::Arc;

/// The book that begins with the publication of this edition.
fn book_of(alloc: Global, edition: &Edition) -> Result<Book, OutOfMemory>
    requires { edition.now.number ≡ 1 }
    ensures { IfOk result (λ book. book ≡ with_publication no_journal edition.now.facts) }
{
    let facts = edition.facts().share()?;
    Book::open(alloc, MOST_CAPTURES, facts)
}

/// The book that begins with the first edition, where that has this number; `None` exactly where it
/// hasn't.
fn first_book(
    alloc: Global,
    editions: &[Arc<Edition>],
    number: u64,
) -> Result<Option<Book>, OutOfMemory>
    requires numbered { AreNumbered (map arc_value editions.now) }
    ensures { IfOk result (λ book.
        book ≡ with_next (map arc_value editions.now) number no_journal) }
{
    match edition_at(editions, 0) {
        Some(edition) => {
            if edition.number() != number {
                return Ok(None);
            }
            Ok(Some(book_of(alloc, edition)?))
        }
        None => Ok(None),
    }
}

/// Takes in the publication that a line tells, where there was none; whether it is that of the
/// first edition.
fn replay_beginning(
    book: &mut Option<Book>,
    alloc: Global,
    editions: &[Arc<Edition>],
    number: u64,
) -> Result<bool, OutOfMemory>
    requires numbered { AreNumbered (map arc_value editions.now) }
    ensures begun { result ≡ Ok true
        → with_next (map arc_value editions.now) number no_journal ≡ Some (journal_of book.new) }
    ensures wrong { result ≡ Ok false
        → with_next (map arc_value editions.now) number no_journal ≡ None }
    ensures under { result ≡ Ok true → IsUnder (map arc_value editions.now) book.new }
{
    match first_book(alloc, editions, number)? {
        Some(begun) => {
            *book = Some(begun);
            Ok(true)
        }
        None => Ok(false),
    }
}

/// Takes in what a line tells where nothing was published yet: an ask is wrong there.
fn replay_first(
    book: &mut Option<Book>,
    alloc: Global,
    editions: &[Arc<Edition>],
    told: &Reading<'_>,
) -> Result<bool, OutOfMemory>
    requires none { book.old ≡ None }
    requires numbered { AreNumbered (map arc_value editions.now) }
    ensures replayed { result ≡ Ok true
        → with_line (map arc_value editions.now) (line_value told.now) no_journal
        ≡ Some (journal_of book.new) }
    ensures wrong { result ≡ Ok false
        → with_line (map arc_value editions.now) (line_value told.now) no_journal ≡ None }
    ensures under { result ≡ Ok true → IsUnder (map arc_value editions.now) book.new }
{
    match told {
        Reading::Published(number) => replay_beginning(book, alloc, editions, *number),
        Reading::Ask(_) => Ok(false),
        Reading::Record(_) | Reading::Lane(_) | Reading::Other => Ok(true),
    }
}

/// Takes in what a line tells where something was published.
fn replay_begun(
    book: &mut Book,
    editions: &[Arc<Edition>],
    told: &Reading<'_>,
) -> Result<bool, OutOfMemory>
    requires numbered { AreNumbered (map arc_value editions.now) }
    requires under { IsBegunUnder (map arc_value editions.now) book.old }
    requires told { IsAskInRange (line_value told.now) }
    ensures replayed { result ≡ Ok true
        → with_line (map arc_value editions.now) (line_value told.now) book.old ≡ Some book.new }
    ensures wrong { result ≡ Ok false
        → with_line (map arc_value editions.now) (line_value told.now) book.old ≡ None }
    ensures under { result ≡ Ok true → IsBegunUnder (map arc_value editions.now) book.new }
{
    replay_line(book, editions, told)
}

/// Takes in what a line tells: the first publication begins the book. Whether the line tells the
/// next publication, or an ask and an answer that are so.
pub(crate) fn replay_told(
    book: &mut Option<Book>,
    alloc: Global,
    editions: &[Arc<Edition>],
    told: &Reading<'_>,
) -> Result<bool, OutOfMemory>
    requires numbered { AreNumbered (map arc_value editions.now) }
    requires under { IsUnder (map arc_value editions.now) book.old }
    requires told { IsAskInRange (line_value told.now) }
    ensures replayed { result ≡ Ok true
        → with_line (map arc_value editions.now) (line_value told.now) (journal_of book.old)
        ≡ Some (journal_of book.new) }
    ensures wrong { result ≡ Ok false
        → with_line (map arc_value editions.now) (line_value told.now) (journal_of book.old)
        ≡ None }
    ensures under { result ≡ Ok true → IsUnder (map arc_value editions.now) book.new }
{
    match book {
        Some(begun) => replay_begun(begun, editions, told),
        None => replay_first(book, alloc, editions, told),
    }
}
