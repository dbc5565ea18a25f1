ghost use Rattle.std.specs.Prelude.{◌≡◌};
ghost use Rattle.fw_command.specs.declared.script_fault.ScriptFault.TheVariants.{OutOfMemory};

use ipfw_parser::Kind;
use std::alloc::AllocFailed;
use thiserror::Error;

/// Why a script isn't read, in the order in which it is tested: its length, the number of its lines,
/// and then the first line that can't stand.
#[derive(Clone, Copy, Debug, PartialEq, Eq, Drop, Error)]
pub enum ScriptFault {
    /// More than 1,048,576 bytes.
    #[error("the script has more than 1,048,576 bytes")]
    TooLong,
    /// More than 65,536 lines.
    #[error("the script has more than 65,536 lines")]
    TooManyLines,
    /// The first fault of the line: the column where its word begins, from 1, and what it is.
    #[error("line {line}, column {column}: {kind}")]
    Parse { line: u32, column: u32, kind: Kind },
    /// A line `after` where packets don't wait for commands, and the column of this word.
    #[error("line {line}, column {column}: `after` can't stand in a live run")]
    PaceInLive { line: u32, column: u32 },
    /// The 4,097th command behind `live`; listings count, lines `after` don't.
    #[error("the script has more than 4,096 commands behind `live`")]
    TooManyLive,
    /// Memory ran out.
    #[error("out of memory")]
    OutOfMemory,
}

impl<T: Drop> From<AllocFailed<T>> for ScriptFault {
    ghost from_gives = { λ _ e. e ≡ OutOfMemory };

    fn from(_error: AllocFailed<T>) -> ScriptFault {
        ScriptFault::OutOfMemory
    }
}
