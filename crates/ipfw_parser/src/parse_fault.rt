ghost use Rattle.std.specs.Prelude.{◌≡◌, Some};
ghost use Rattle.ipfw_parser.specs.Sentences.{fault_sentence};
ghost use Rattle.ipfw_parser.specs.declared.parse_fault.ParseFault.TheVariants.{OutOfMemory};

use crate::Kind;
use std::alloc::{AllocError, AllocFailed};
use std::error::Error;
use std::fmt;

/// Why the words of a line are no rule.
#[derive(Clone, Copy, Debug, PartialEq, Eq)]
pub enum ParseFault {
    /// The first fault from left to right: the column where its word begins, from 1, and what it is.
    At { column: u32, kind: Kind },
    /// Memory ran out.
    OutOfMemory,
}

impl fmt::Display for ParseFault {
    ghost output = { λ fault. Some (fault_sentence fault) };

    fn fmt<W: fmt::Write>(&self, f: &mut fmt::Formatter<W>) -> fmt::Result {
        match self {
            ParseFault::At { column, kind } => write!(f, "column {column}: {kind}"),
            ParseFault::OutOfMemory => f.write_str("out of memory"),
        }
    }
}

impl Error for ParseFault {}

impl From<AllocError> for ParseFault {
    ghost from_gives = { λ _ e. e ≡ OutOfMemory };

    fn from(_error: AllocError) -> ParseFault {
        ParseFault::OutOfMemory
    }
}

impl<T: Drop> From<AllocFailed<T>> for ParseFault {
    ghost from_gives = { λ _ e. e ≡ OutOfMemory };

    fn from(_error: AllocFailed<T>) -> ParseFault {
        ParseFault::OutOfMemory
    }
}

impl From<fw_base::OutOfMemory> for ParseFault {
    ghost from_gives = { λ _ e. e ≡ OutOfMemory };

    fn from(_error: fw_base::OutOfMemory) -> ParseFault {
        ParseFault::OutOfMemory
    }
}
