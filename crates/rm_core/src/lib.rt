//! The core of a read-mostly lock, rmlock(9), as a machine of single steps: which step may come in
//! which state, what it changes and what it hears. It has no thread, no clock and no queue.
//!
//! Tests: `lock_tests`, src/core_rows.
#![tactic(auto)]

pub use event::{Event, Heard};
pub use lock_core::Core;
pub use processor_state::{Phase, ProcessorState, Token};

mod event;
pub mod laws;
mod lock_core;
mod processor_state;
