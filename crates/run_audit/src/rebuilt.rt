use counter_book::Tally;
use eval_engine::Docket;
use generation_store::Edition;
use report_texts::LineAnswer;
use state_journal::Book;
use std::sync::Arc;

/// The record that a report is of, as an audit made it again, and the report.
#[derive(Drop)]
pub struct Rebuilt {
    pub report: Vec<u8>,
    /// The editions in the order of their publication.
    pub editions: Vec<Arc<Edition>>,
    /// The answers to the lines behind `live`.
    pub answers: Vec<LineAnswer>,
    pub book: Book,
    /// Of each lane, in the order of the lanes, what was entered.
    pub dockets: Vec<Docket>,
    /// What was counted.
    pub tallies: Vec<Tally>,
    /// The tracker words.
    pub trackers: Vec<u64>,
}
