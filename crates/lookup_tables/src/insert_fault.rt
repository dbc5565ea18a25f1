ghost use Rattle.std.specs.Prelude.{◌≡◌, Some};
ghost use Rattle.lookup_tables.specs.Sentences.{sentence_of};
ghost use Rattle.lookup_tables.specs.declared.insert_fault.InsertFault.TheVariants.{OutOfMemory};

use std::alloc::{AllocError, AllocFailed};
use std::error::Error;
use std::fmt;

/// Why an entry was not inserted. The table is as it was.
#[derive(Clone, Copy, Debug, PartialEq, Eq)]
pub enum InsertFault {
    /// The table has an entry of that key.
    Exists,
    /// Memory ran out.
    OutOfMemory,
}

impl fmt::Display for InsertFault {
    ghost output = { λ fault. Some (sentence_of fault) };

    fn fmt<W: fmt::Write>(&self, f: &mut fmt::Formatter<W>) -> fmt::Result {
        match self {
            InsertFault::Exists => f.write_str("the key is there"),
            InsertFault::OutOfMemory => f.write_str("out of memory"),
        }
    }
}

impl Error for InsertFault {}

impl<T: Drop> From<AllocFailed<T>> for InsertFault {
    ghost from_gives = { λ _ e. e ≡ OutOfMemory };

    fn from(_error: AllocFailed<T>) -> InsertFault {
        InsertFault::OutOfMemory
    }
}

impl From<AllocError> for InsertFault {
    ghost from_gives = { λ _ e. e ≡ OutOfMemory };

    fn from(_error: AllocError) -> InsertFault {
        InsertFault::OutOfMemory
    }
}
