ghost use Rattle.std.specs.Prelude.{◌≡◌, IfOk, IfErr};
ghost use Rattle.report_states.specs.Behind.{AreLiveCounts, HasCause};
ghost use Rattle.report_states.specs.LiveCounts as spec;
ghost use Rattle.state_journal.specs.Journal.{IsLawfulFrom, no_states};

use crate::StatesFault;
use crate::journal_behind::journal_behind;
use crate::walk::Walk;
use fw_base::OutOfMemory;
use report_values::JournalColumns;
use state_journal::Book;
use std::alloc::Global;

/// The greatest number of states that lived at once in each column, along a journal.
fn counts_along(
    alloc: Global,
    book: &Book,
    columns: JournalColumns,
) -> Result<Vec<u64>, OutOfMemory>
    ensures counted { IfOk result (λ counts. counts.items
        ≡ spec.live_counts columns book.now) }
    ensures lawful { IfOk result (λ counts. IsLawfulFrom no_states book.now.facts
        book.now.entries) }
{
    let mut walk = Walk::new(alloc, book)?;
    let mut begin = u64::from(columns.first);
    walk.pass(begin);
    let mut counts = Vec::new(alloc);
    for column in 0..columns.count {
        let end = begin + u64::from(columns.seconds);
        counts.push(walk.column(begin, end) as u64)?;
        begin = end;
    }
    Ok(counts)
}

/// The greatest number of states that lived at once in each of these columns, along the journal that
/// these lines of a report tell by the script behind it. It fails where the script gives no edition,
/// with the first line that isn't what the script gives, or for want of memory.
pub fn live_states(
    alloc: Global,
    script: &[u8],
    lines: &[u8],
    columns: JournalColumns,
) -> Result<Vec<u64>, StatesFault>
    ensures counted { IfOk result (λ counts. AreLiveCounts script.now lines.now columns
        counts.items) }
    ensures wrong { IfErr result (HasCause script.now lines.now) }
{
    let book = journal_behind(alloc, script, lines)?;
    Ok(counts_along(alloc, &book, columns)?)
}
