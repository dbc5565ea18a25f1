ghost use Rattle.std.specs.Prelude.{◌≡◌, ◌≤◌, ◌<◌, ◌+◌, ◌^◌, IfOk, IfErr, length};
ghost use Rattle.fw_command.specs.Scripts as spec;
ghost use Rattle.fw_command.specs.Scripts.{Reads, IsOnLine};
ghost use Rattle.fw_command.specs.Laws.{IsFaultPlace, IsOfItsLines};
ghost use Rattle.fw_command.specs.Lines.{lines_of};
ghost use Rattle.fw_command.specs.WellFormed.{IsScript};

use crate::lines::{count_lines, first_line};
use crate::script_draft::ScriptDraft;
use crate::statement::{Place, Statement};
use crate::statements::says;
use crate::{Pace, Script, ScriptFault};
use ipfw_parser::ParseFault;
use std::alloc::Global;

/// How many bytes a script has at most.
pub const SCRIPT_BYTES: usize = 1_048_576;

/// How many lines a script has at most.
pub const SCRIPT_LINES: usize = 65_536;

/// How many commands stand behind `live` at most.
pub const LIVE_COMMANDS: u32 = 4_096;

fn with_line_number(
    line: u32,
    said: Result<Statement, ParseFault>,
) -> Result<Statement, ScriptFault>
    ensures { IsOnLine line said result }
{
    match said {
        Ok(statement) => Ok(statement),
        Err(ParseFault::At { column, kind }) => Err(ScriptFault::Parse { line, column, kind }),
        Err(ParseFault::OutOfMemory) => Err(ScriptFault::OutOfMemory),
    }
}

/// The statement, where it may stand at this place.
fn allowed_statement(
    pace: Pace,
    place: Place,
    statement: Statement,
) -> Result<Statement, ScriptFault>
    ensures { result ≡ spec.allowed_statement pace place statement }
{
    match (pace, &statement) {
        (Pace::Live, Statement::After { column, .. }) => Err(ScriptFault::PaceInLive {
            line: place.line,
            column: *column,
        }),
        (_, Statement::Order(_)) if place.live.is_some() && LIVE_COMMANDS <= place.ran => {
            Err(ScriptFault::TooManyLive)
        }
        (Pace::Serial, Statement::After { .. })
        | (_, Statement::Nothing | Statement::Live | Statement::Order(_)) => Ok(statement),
    }
}

/// What the line at this place says, or its fault.
#[tactic(auto, unfolding(crate::specs::Scripts::statement_at))]
fn statement_at(
    alloc: Global,
    pace: Pace,
    place: Place,
    line: &[u8],
) -> Result<Statement, ScriptFault>
    requires { length line.now ≤ 1048576 }
    ensures { Reads result (spec.statement_at pace place line.now) }
{
    let statement = with_line_number(place.line, says(alloc, place.live.is_some(), line))?;
    allowed_statement(pace, place, statement)
}

/// The place of the line behind one that says this.
fn next_place(place: Place, statement: &Statement) -> Place
    requires line { place.line + 1 < 2 ^ 32 }
    requires ran { place.ran + 1 < 2 ^ 32 }
    ensures { result ≡ spec.next_place place statement.now }
{
    let line = place.line + 1;
    match statement {
        Statement::Live => Place {
            line,
            live: Some(place.line),
            ran: place.ran,
        },
        Statement::Order(_) if place.live.is_some() => Place {
            line,
            live: place.live,
            ran: place.ran + 1,
        },
        Statement::Nothing | Statement::Order(_) | Statement::After { .. } => Place {
            line,
            live: place.live,
            ran: place.ran,
        },
    }
}

/// The script of all lines.
fn read_lines(alloc: Global, pace: Pace, bytes: &[u8]) -> Result<Script, ScriptFault>
    requires { length bytes.now ≤ 1048576 }
    ensures { Reads result (spec.script_from pace spec.first_place (lines_of bytes.now)) }
{
    let mut draft = ScriptDraft::new(alloc);
    let mut place = Place {
        line: 1,
        live: None,
        ran: 0,
    };
    let mut rest = bytes;
    while !rest.is_empty() {
        let (line, behind) = first_line(rest);
        let statement = statement_at(alloc, pace, place, line)?;
        let next = next_place(place, &statement);
        draft.take(place, statement)?;
        place = next;
        rest = behind;
    }
    Ok(draft.script(place.live))
}

#[tactic(auto, unfolding(crate::specs::Scripts::script_of))]
/// Reads a script of at most 1,048,576 bytes and 65,536 lines, of which at most 4,096 are commands
/// behind `live`: its commands, or the first fault. Time grows with the bytes; memory is taken for the
/// words of one line and for what the commands keep.
pub fn parse_script(alloc: Global, bytes: &[u8], pace: Pace) -> Result<Script, ScriptFault>
    // A script is its lines: what it has stands on them in their order, and it has what each says.
    ensures lines { IfOk result (IsOfItsLines (lines_of bytes.now)) }

    // The fault of a line is that of the first line with one, in a column of it.
    ensures fault { IfErr result (IsFaultPlace pace 1 (lines_of bytes.now)) }

    // Exactly the grammar's script or its first fault, line after line, unless memory runs out.
    ensures exact { Reads result (spec.script_of pace bytes.now) }

    // Each number of each command is in its range.
    ensures well_formed { IfOk result IsScript }
{
    if bytes.len() > SCRIPT_BYTES {
        return Err(ScriptFault::TooLong);
    }
    if count_lines(bytes) > SCRIPT_LINES {
        return Err(ScriptFault::TooManyLines);
    }
    read_lines(alloc, pace, bytes)
}
