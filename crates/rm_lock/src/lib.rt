//! A read-mostly lock, rmlock(9), over numbered editions and a book.
//!
//! Tests: `lock_tests`, src/lock_rows.
#![tactic(auto)]

pub use holding::Holding;
pub use keeping::Keeping;
pub use lock::{Opened, RmLock};
pub use operator::Operator;
pub use processor::Processor;
pub use reader_calls::{Busy, Entry};
pub use reading::Reading;
pub use receipt::Receipt;
pub use rm_table::Closed;
pub use writing::Writing;

mod book_calls;
mod closing;
mod holding;
mod keeping;
mod lock;
mod opening;
mod operator;
mod processor;
mod publishing;
mod reader_calls;
mod reading;
mod receipt;
mod slots;
mod told_calls;
mod waits;
mod write_calls;
mod writing;
