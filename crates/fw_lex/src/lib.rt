//! Words of a line of a rule script: the longest runs of bytes that aren't blank, before a comment.
//!
//! Tests: `language_tests`, src/words.
#![tactic(auto)]

pub use laws::longest_runs_are_scanned;
pub use lexer::{before_comment, is_blank, tokens};
pub use token::{LexFault, Token};

mod laws;
mod lexer;
mod token;
