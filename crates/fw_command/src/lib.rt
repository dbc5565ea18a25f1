//! Reads a script of the packet filter: its commands (ipfw(8)), or the first fault.
//!
//! Tests: `language_tests`, src/scripts.
#![tactic(auto)]

pub use laws::{commands_stand_on_their_lines, faults_have_their_columns, lines_go_by_bytes};
pub use script::{Line, Pace, Script, Step};
pub use script_fault::ScriptFault;
pub use scripts::{LIVE_COMMANDS, SCRIPT_BYTES, SCRIPT_LINES, parse_script};
pub use statement::Statement;

mod commands;
mod ends;
mod fault_text;
mod laws;
mod lines;
mod script;
mod script_draft;
mod script_fault;
mod scripts;
mod set_commands;
mod setting_commands;
mod statement;
mod statements;
mod table_commands;
