ghost use Rattle.std.specs.Prelude.{◌≡◌, ◌≤◌, ◌<◌, ◌++◌, None, IfOk, length, map};
ghost use Rattle.command_words.specs.Invocation.{capture_names};
ghost use Rattle.audit_driver.specs.Concluding.{ComparesWith, Concludes, IsAnAudit, IsStoppedSo};

use crate::audit_result::AuditResult;
use command_words::CaptureWord;
use fw_base::{Name, OutOfMemory};
use fw_report::write_report;
use fw_rule::Items;
use report_texts::{CaptureEnd, Ends, LineAnswer, Recorded};
use run_audit::{Audit, AuditFault, Comparer, Rebuilt};
use std::alloc::Global;
use std::mem;

/// The answers of the listings before `live` and then those behind it.
fn join_answers(
    first: Items<LineAnswer>,
    behind: Vec<LineAnswer>,
) -> Result<Items<LineAnswer>, OutOfMemory>
    ensures { IfOk result (λ answers. answers ≡ first ++ behind.items) }
{
    let mut answers = first.into_vec();
    let mut behind = behind;
    answers.append(&mut behind)?;
    Ok(Items::from_vec(answers))
}

/// Writes what was rebuilt again, and says whether it is the report.
fn compare(rebuilt: Rebuilt, ends: &Ends) -> Result<AuditResult, OutOfMemory>
    requires { 0 < length rebuilt.editions.items }
    ensures { IfOk result (ComparesWith rebuilt ends.now) }
{
    let Rebuilt {
        report,
        editions,
        book,
        dockets,
        tallies,
        trackers,
        ..
    } = rebuilt;
    let mut sink = Comparer::new(report);
    let recorded = Recorded {
        editions: &editions,
        book: &book,
        dockets: &dockets,
        tallies: &tallies,
        trackers: &trackers,
        hits: &[],
    };
    let written = write_report(&recorded, ends, true, &mut sink);
    if written.is_err() {
        return Err(OutOfMemory);
    }
    match sink.differs() {
        Some(line) => Ok(AuditResult::No(line)),
        None => Ok(AuditResult::Yes),
    }
}

/// What an audit comes to that met all records.
pub(crate) fn conclude(
    alloc: Global,
    first: Items<LineAnswer>,
    audit: Audit,
    ends: Vec<CaptureEnd>,
) -> Result<AuditResult, OutOfMemory>
    requires { IsAnAudit audit }
    ensures { IfOk result (Concludes first audit ends.items) }
{
    match audit.close() {
        Err(AuditFault::OutOfMemory) => Err(OutOfMemory),
        Err(AuditFault::Wrong { line }) => Ok(AuditResult::No(line)),
        Ok(mut rebuilt) => {
            let behind = mem::replace(&mut rebuilt.answers, Vec::new(alloc));
            let ends = Ends {
                captures: Items::from_vec(ends),
                answers: join_answers(first, behind)?,
            };
            compare(rebuilt, &ends)
        }
    }
}

/// What an audit comes to that was stopped at the last of so many captures.
pub(crate) fn stop(
    alloc: Global,
    audit: Audit,
    captures: usize,
    names: &[CaptureWord<'_>],
) -> Result<AuditResult, OutOfMemory>
    requires some { audit.fault ≡ None → 1 ≤ captures }
    requires named { audit.fault ≡ None → captures ≤ length names.now }
    ensures { IfOk result (IsStoppedSo audit captures (map capture_names names.now)) }
{
    match audit.fault() {
        Some(AuditFault::OutOfMemory) => Err(OutOfMemory),
        Some(AuditFault::Wrong { line }) => Ok(AuditResult::No(line)),
        None => Ok(AuditResult::Unread(Name::new(alloc, names[captures - 1].name)?)),
    }
}
