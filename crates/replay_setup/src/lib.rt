//! What a replay and an audit have in common: the names that they open and read, a script's edition 1, and what
//! their runs answer. A view of a report begins so too.
//!
//! Tests: through `run`: `run_tests`, src/runs.
#![tactic(auto)]

pub use first_edition::{FirstEdition, read_first_edition};
pub use named_source::{NamedSource, read_named};
pub use outcome::{Outcome, no_ends};
pub use outside::{LibraryView, SinkView};
pub use ready::{Readiness, Ready, make_ready};
pub use script_error::{RefusedLine, ScriptError};
pub use unread_name::write_unread;
pub use written_status::status_written;

mod capture_openings;
mod first_edition;
mod named_source;
mod outcome;
mod outside;
mod ready;
mod script_error;
mod unread_name;
mod written_status;
