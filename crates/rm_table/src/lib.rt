//! The table under a read-mostly lock, rmlock(9): its words and slots, and one function for each kind
//! of atomic step.
//!
//! Tests: `lock_tests`, src/table_rows.
#![tactic(auto)]

pub use closing::Closed;
pub use lock_steps::Tried;
pub use opening::OpenTable;
pub use padded_slot::Slot;
pub use part::Part;
pub use rule::{LockRule, LockView, Opening};
pub use seat::RmSeat;
pub use table::RmTable;
pub use view::{Role, View};

mod book_steps;
mod closing;
pub mod laws;
mod lock_steps;
mod opening;
mod padded_slot;
mod part;
mod plays;
mod reader_steps;
mod rule;
mod seat;
mod seat_steps;
mod table;
mod view;
mod writer_steps;
