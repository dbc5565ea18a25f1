ghost use Rattle.std.specs.Prelude.{◌≡◌};
ghost use Rattle.fw_base.specs.Texts.{WritesText};
ghost use Rattle.fw_command.specs.FaultText as spec;

use crate::ScriptFault;
use fw_base::{Failed, Sink, write_pieces, write_text};
use ipfw_parser::Kind;
use itoa::Buffer;

#[tactic(auto, unfolding(crate::specs::FaultText::kind_text))]
fn kind_text(kind: Kind) -> &'static [u8]
    ensures { result.now ≡ spec.kind_text kind }
{
    match kind {
        Kind::UnknownWord => b"UnknownWord",
        Kind::MissingWord => b"MissingWord",
        Kind::ExtraWord => b"ExtraWord",
        Kind::BadNumber => b"BadNumber",
        Kind::NumberRange => b"NumberRange",
        Kind::BadAddress => b"BadAddress",
        Kind::BadPrefix => b"BadPrefix",
        Kind::BadPort => b"BadPort",
        Kind::BadRange => b"BadRange",
        Kind::BadFlag => b"BadFlag",
        Kind::BadName => b"BadName",
        Kind::SecondState => b"SecondState",
        Kind::Misplaced => b"Misplaced",
        Kind::BadByte => b"BadByte",
    }
}

#[tactic(auto, unfolding(crate::specs::FaultText::placed_text))]
fn write_placed<K: Sink>(out: &mut K, line: u32, column: u32, kind: &[u8]) -> Result<(), Failed>
    ensures { WritesText (K.state out.old) (K.state out.new)
        (spec.placed_text line column kind.now) result }
{
    let mut line_digits = Buffer::new();
    let line = line_digits.format(line).as_bytes();
    let mut column_digits = Buffer::new();
    let column = column_digits.format(column).as_bytes();
    write_pieces(
        out,
        &[
            b"script line ",
            line,
            b" column ",
            column,
            b" ",
            kind,
            b"\n",
        ],
    )
}

impl ScriptFault {
    ghost use Rattle.fw_base.specs.Texts.{WritesText};
    ghost use Rattle.fw_command.specs.FaultText as spec;

    /// Writes the one line that the program prints of the fault; nothing where memory ran out.
    #[tactic(auto, unfolding(crate::specs::FaultText::fault_text))]
    pub fn write<K: Sink>(&self, out: &mut K) -> Result<(), Failed>
        ensures { WritesText (K.state out.old) (K.state out.new) (spec.fault_text self.now) result }
    {
        match *self {
            ScriptFault::TooLong => write_text(out, b"script TooLong\n"),
            ScriptFault::TooManyLines => write_text(out, b"script TooManyLines\n"),
            ScriptFault::Parse { line, column, kind } => {
                write_placed(out, line, column, kind_text(kind))
            }
            ScriptFault::PaceInLive { line, column } => {
                write_placed(out, line, column, b"PaceInLive")
            }
            ScriptFault::TooManyLive => write_text(out, b"script TooManyLive\n"),
            ScriptFault::OutOfMemory => Ok(()),
        }
    }
}
