//! What a replay reads and answers, whichever way it goes through its records and commands: captures that are
//! read record by record, how they end, and what the lines behind `live` come to.
//!
//! Tests: through `run`: `run_tests`, src/runs.
#![tactic(auto)]

pub use listing::{Listing, answer_listing, listing_of};
pub use open_track::OpenTrack;
pub use opened::{OpenedCapture, limit_for};
pub use replayed::Replayed;
pub use taken::{Taken, held};
pub use track::Track;
pub use unread::is_unread;

mod listing;
mod open_track;
mod opened;
mod replayed;
mod taken;
mod track;
mod unread;
