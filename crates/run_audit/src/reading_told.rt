ghost use Rattle.std.specs.Prelude.{◌≡◌, ◌<◌, ◌≤◌, ◌+◌, ◌^◌, ◌==◌, None, Some, IfOk, IfErr, length, map};
ghost use Rattle.std.specs.Arc.{arc_value};
ghost use Rattle.run_audit.specs.AuditFaults.{IfWrong, NamesLine};
ghost use Rattle.run_audit.specs.JournalTold.{at_the_end, wrong_line};
ghost use Rattle.run_audit.specs.Opening.{unformed_line, unlawful_line};
ghost use Rattle.run_audit.specs.Replaying.{AreNumbered};
ghost use Rattle.run_audit.specs.Telling.{IsClosed, journal_of};
ghost use Rattle.run_audit.specs.ToldReport.{IsTold};

use crate::AuditFault;
use crate::telling::Telling;
use crate::told_report::ToldReport;
use generation_store::Edition;
use report_reading::next_line;
use state_journal::Book;
use std::alloc::Global;
use std::sync::Arc;

/// Whether each of these editions was published.
fn is_complete(book: &Book, editions: &[Arc<Edition>]) -> bool
    ensures { result ≡ (length book.now.facts == length (map arc_value editions.now)) }
{
    book.facts().len() == editions.len()
}

/// What the report tells whose lines were all read, where each edition was published; else the line
/// behind the last one, which has this number, lacks.
fn closed(
    telling: Telling,
    editions: Vec<Arc<Edition>>,
    line: u64,
) -> Result<ToldReport, AuditFault>
    requires first { 1 ≤ line }
    requires some { 1 ≤ length editions.items }
    ensures closed { IfOk result (IsClosed (map arc_value editions.items) line telling) }
    ensures editions { IfOk result (λ told. told.editions.items ≡ editions.items) }
    ensures wrong { IfErr result (NamesLine (wrong_line (at_the_end (map arc_value editions.items)
        line (journal_of telling.book)))) }
{
    let Telling {
        book,
        ask_lines,
        records,
        lanes,
    } = telling;
    match book {
        Some(book) => {
            if !is_complete(&book, &editions) {
                return Err(AuditFault::Wrong { line });
            }
            Ok(ToldReport {
                editions,
                book,
                ask_lines,
                records,
                lanes,
                lines: line - 1,
            })
        }
        None => Err(AuditFault::Wrong { line }),
    }
}

/// What a report tells under these editions: its lines are read one by one, and its journal is met
/// by the states. It fails at a line that has the form of none; where each has a form, at the first
/// with which the journal is wrong.
pub(crate) fn told_report(
    alloc: Global,
    report: &[u8],
    editions: Vec<Arc<Edition>>,
) -> Result<ToldReport, AuditFault>
    requires some { 1 ≤ length editions.items }
    requires numbered { AreNumbered (map arc_value editions.items) }
    ensures told { IfOk result (IsTold report.now) }
    ensures formed { IfOk result (λ told. unformed_line report.now ≡ None) }
    ensures editions { IfOk result (λ told. told.editions.items ≡ editions.items) }
    ensures few { IfOk result (λ told. told.lines + 1 < 2 ^ 64) }
    ensures wrong { IfErr result (λ fault. IfWrong fault (λ line. unformed_line report.now ≡ None
        → unlawful_line (map arc_value editions.items) report.now ≡ Some line)) }
{
    let mut telling = Telling::new(alloc);
    let mut rest = report;
    let mut line: u64 = 1;
    loop {
        match next_line(rest) {
            None => return closed(telling, editions, line),
            Some((text, behind)) => {
                if !telling.take_line(alloc, &editions, line, text)? {
                    return Err(AuditFault::Wrong { line });
                }
                rest = behind;
                line += 1;
            }
        }
    }
}
