//! A report, read back whole as the values that people ask of it.
//!
//! Tests: the built program: `tests/run`.
#![tactic(auto)]

pub use capture::{Capture, read_captures};
pub use capture_lines::EndLine;
pub use journal_columns::JournalColumns;
pub use known_rules::KnownRules;
pub use laws::answers_are_among_their_bytes;
pub use lines::Lines;
pub use outcome_parts::outcome_text;
pub use outcome_texts::{OutcomeTexts, text_at};
pub use outcomes::outcome_numbers;
pub use records::Records;
pub use report::{Report, ReportError, read_report};
pub use rules::{CountedRule, KnownRule};
pub use sections::{Journal, Sections};
pub use unfit::Unfit;
pub use verdicts::other_verdicts;

mod capture;
mod capture_lines;
mod fields;
mod journal_columns;
mod known_rules;
mod laws;
mod lines;
mod outcome_parts;
mod outcome_texts;
mod outcomes;
mod reads;
mod records;
mod report;
mod rules;
mod sections;
mod unfit;
mod verdicts;
