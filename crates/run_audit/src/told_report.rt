use generation_store::Edition;
use report_reading::{LaneLine, RecordLine};
use state_journal::Book;
use std::sync::Arc;

/// What a report's line of a record tells, and which line that is.
#[derive(Clone, Copy)]
pub(crate) struct ToldRecord {
    /// The line of the report, from 1.
    pub(crate) line: u64,
    pub(crate) told: RecordLine,
}

/// What a report's line of a lane tells, and which line that is.
#[derive(Clone, Copy)]
pub(crate) struct ToldLane {
    /// The line of the report, from 1.
    pub(crate) line: u64,
    pub(crate) told: LaneLine,
}

/// What a report tells whose lines have their form and whose journal is that of the states.
#[derive(Drop)]
pub(crate) struct ToldReport {
    /// The editions that the script makes, in the order of their publication.
    pub(crate) editions: Vec<Arc<Edition>>,
    /// The states with the journal that the report tells.
    pub(crate) book: Book,
    /// The line of each ask of the journal, in the journal's order.
    pub(crate) ask_lines: Vec<u64>,
    /// The lines of records, in the report's order.
    pub(crate) records: Vec<ToldRecord>,
    /// The lines of lanes, in the report's order.
    pub(crate) lanes: Vec<ToldLane>,
    /// How many lines the report has; where a line lacks, it is one past the last.
    pub(crate) lines: u64,
}
