ghost use Rattle.std.specs.Prelude.{◌≡◌};
ghost use Rattle.fw_base.specs.Texts.{WritesText};
ghost use Rattle.replay_setup.specs.ScriptTexts as spec;
ghost use Rattle.replay_setup.specs.declared.script_error.ScriptError.TheVariants as errors;

use fw_base::{Failed, OutOfMemory, Sink, write_pieces};
use fw_command::ScriptFault;
use itoa::Buffer;
use rule_edits::ApplyFault;
use std::alloc::{AllocError, AllocFailed};

/// Why a script gives no edition, in the order in which it is tested.
#[derive(Clone, Copy)]
pub enum ScriptError {
    /// It isn't of the grammar, or passes a limit.
    Fault(ScriptFault),
    /// The first command before `live` that is refused.
    Refused(RefusedLine),
    OutOfMemory,
}

impl From<AllocError> for ScriptError {
    ghost from_gives = { λ _ e. e ≡ errors.OutOfMemory };

    fn from(_error: AllocError) -> ScriptError {
        ScriptError::OutOfMemory
    }
}

impl<T: Drop> From<AllocFailed<T>> for ScriptError {
    ghost from_gives = { λ _ e. e ≡ errors.OutOfMemory };

    fn from(_error: AllocFailed<T>) -> ScriptError {
        ScriptError::OutOfMemory
    }
}

impl From<OutOfMemory> for ScriptError {
    ghost from_gives = { λ _ e. e ≡ errors.OutOfMemory };

    fn from(_error: OutOfMemory) -> ScriptError {
        ScriptError::OutOfMemory
    }
}

/// Writes which script line is refused, and why.
#[tactic(auto, unfolding(crate::specs::ScriptTexts::refused_text))]
fn write_refused<K: Sink>(out: &mut K, refused: RefusedLine) -> Result<(), Failed>
    ensures { WritesText (K.state out.old) (K.state out.new) (spec.refused_text refused) result }
{
    let mut line_digits = Buffer::new();
    let line = line_digits.format(refused.line).as_bytes();
    let fault = refused.fault.word().as_bytes();
    write_pieces(out, &[b"script line ", line, b" ", fault, b"\n"])
}

impl ScriptError {
    ghost use Rattle.fw_base.specs.Texts.{WritesText};
    ghost use Rattle.replay_setup.specs.ScriptTexts as spec;

    /// Writes the one line that says why; nothing where memory ran out.
    #[tactic(auto, unfolding(crate::specs::ScriptTexts::error_text))]
    pub fn write<K: Sink>(&self, out: &mut K) -> Result<(), Failed>
        ensures { WritesText (K.state out.old) (K.state out.new) (spec.error_text self.now) result }
    {
        match self {
            ScriptError::Fault(fault) => fault.write(out),
            ScriptError::Refused(refused) => write_refused(out, *refused),
            ScriptError::OutOfMemory => Ok(()),
        }
    }
}

/// A command that is refused.
#[derive(Clone, Copy)]
pub struct RefusedLine {
    /// The line where it stands, from 1.
    pub line: u32,
    pub fault: ApplyFault,
}
