//! What a lane does in whichever world: inputs, entries, asks, counts and sections, and the record of a run.
//!
//! Tests: rows through `serial_world`: `record_tests`, src/records.
#![tactic(auto)]

pub use asks_book::AsksBook;
pub use columns::Columns;
pub use commit_fault::CommitFault;
pub use editions::{last_edition, next_edition, share_edition, store_of};
pub use lane_work::LaneWork;
pub use laws::lanes_stand_once;
pub use opening::open_cache;
pub use record::Record;
pub use skipped::{Skipped, skipped_entry};

mod asks_book;
mod columns;
mod commit_fault;
mod editions;
mod evaluating;
mod lane_work;
mod laws;
mod opening;
mod record;
mod skipped;
