//! The words of a command line, and what they name: a script and captures to replay, or to audit a report of, or a load.
//!
//! `specs/Words.antt` says which lists of words are a command. `read_words` reads them by `clap`.
//!
//! Tests: `input_tests`, src/words.
#![tactic(auto)]

pub use capture_word::CaptureWord;
pub use invocation::{Invocation, Mode};
pub use words::read_words;

mod arguments;
mod bytes;
mod cache_word;
mod capture_word;
mod captures;
mod invocation;
mod load_word;
mod words;
