//! What the program reads and writes outside: the words of its command line, the files of the system, and standard
//! output, with their failed calls counted.
//!
//! Tests: `input_tests`, src/files; real files and words in `tests/run`.
#![tactic(auto)]

pub use command_line::{OUT_OF_MEMORY, words_given};
pub use fault_counter::FaultCounter;
pub use file_library::FileLibrary;

mod command_line;
mod fault_counter;
mod file_library;
