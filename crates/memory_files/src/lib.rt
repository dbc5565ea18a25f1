//! Sources, sinks and libraries over memory, for tests and programs that measure.
//!
//! Tests: none of its own.
#![tactic(auto)]

pub use memory_library::MemoryLibrary;
pub use memory_sink::MemorySink;
pub use memory_source::MemorySource;

mod memory_library;
mod memory_sink;
mod memory_source;
