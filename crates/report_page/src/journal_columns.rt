use crate::column::Column;
use fw_base::OutOfMemory;
use report_reading::{AskLine, Reading, next_line, read_line};
use report_values::{Journal, JournalColumns};
use state_asks::Reply;
use std::alloc::Global;

/// How many columns the chart has at most.
const MOST_COLUMNS: u64 = 200;

/// Whether an ask made a state.
fn is_made(reply: &Reply) -> bool {
    match reply {
        Reply::Created => true,
        Reply::Found(_, _)
        | Reply::NotFound
        | Reply::Exists
        | Reply::LimitReached(_)
        | Reply::TableFull(_) => false,
    }
}

/// The first and the last second of the asks, where there is one.
fn seconds_in(lines: &[u8]) -> Option<(u32, u32)> {
    let mut rest = lines;
    let mut found = None;
    while let Some((line, behind)) = next_line(rest) {
        rest = behind;
        if let Some(Reading::Ask(told)) = read_line(line) {
            let second = told.op.second();
            found = match found {
                None => Some((second, second)),
                Some((first, last)) => Some((second.min(first), second.max(last))),
            };
        }
    }
    found
}

/// The columns in which a journal is shown; none where the states were asked nothing.
pub fn columns_of(journal: &Journal<'_>) -> Option<JournalColumns> {
    let (first, last) = seconds_in(journal.lines)?;
    let all = u64::from(last.saturating_sub(first)).saturating_add(1);
    let seconds = (all / MOST_COLUMNS).saturating_add(1);
    let count = all.saturating_add(seconds).saturating_sub(1) / seconds.max(1);
    Some(JournalColumns {
        first,
        seconds: seconds as u32,
        count: count.min(MOST_COLUMNS) as u32,
    })
}

/// Counts an ask in the column of its second.
fn count_ask(columns: &mut [Column], shown: &JournalColumns, told: &AskLine) {
    let behind_first = told.op.second().saturating_sub(shown.first);
    let place = behind_first / shown.seconds.max(1);
    if let Some(column) = columns.get_mut(place as usize) {
        column.asks = column.asks.saturating_add(1);
        if is_made(&told.reply) {
            column.made = column.made.saturating_add(1);
        }
    }
}

/// What was asked in each column.
pub(crate) fn asks_in(
    alloc: Global,
    lines: &[u8],
    shown: &JournalColumns,
) -> Result<Vec<Column>, OutOfMemory> {
    let mut columns = Vec::new(alloc);
    for _ in 0..shown.count {
        columns.push(Column { asks: 0, made: 0 })?;
    }
    let mut rest = lines;
    while let Some((line, behind)) = next_line(rest) {
        rest = behind;
        if let Some(Reading::Ask(told)) = read_line(line) {
            count_ask(&mut columns, shown, &told);
        }
    }
    Ok(columns)
}
