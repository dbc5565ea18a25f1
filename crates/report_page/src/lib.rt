//! A page that shows a report: its text is markup of its own and escaped text of the report.
//!
//! Tests: the built program: `tests/run`.
#![tactic(auto)]

pub use bins::{Bin, Shade, bins_of};
pub use escapes::{escaped_text_has_no_markup, write_escaped};
pub use journal_columns::columns_of;
pub use live_states::LiveStates;
pub use moves_table::MovesShown;
pub use page::page_of;
pub use pieces::{Piece, put, write_page};
pub use plain_words::refusal_words;
pub use shares::{last_packets, never_met, packets_of, share};

mod axis;
mod bins;
mod captures;
mod column;
mod escapes;
mod journal_chart;
mod journal_columns;
mod live_states;
mod moves_table;
mod page;
mod pieces;
mod plain_words;
mod rect;
mod rules_table;
mod shares;
mod strip;
mod style;
