use report_values::JournalColumns;

/// How many states lived along a report's journal.
#[derive(Drop)]
pub struct LiveStates {
    /// The journal's columns; none where the states were asked nothing.
    pub columns: Option<JournalColumns>,
    /// The greatest number of states that lived at once in each column.
    pub counts: Vec<u64>,
}
