ghost use Rattle.std.specs.Prelude.{◌≡◌};
ghost use Rattle.rule_edits.specs.Words.{word_of};
ghost use Rattle.rule_edits.specs.declared.apply_fault.ApplyFault.TheVariants.{OutOfMemory};

use std::alloc::{AllocError, AllocFailed};
use thiserror::Error;

/// Why a command is refused. The configuration is as it was.
#[derive(Clone, Copy, Debug, PartialEq, Eq, Error)]
pub enum ApplyFault {
    /// `delete`, `zero` or `set move rule` names a number without a rule.
    #[error("no rule has that number")]
    NoSuchRule,
    /// `add`, `delete` or `set move rule` names rule 65535.
    #[error("rule 65535 can't be changed")]
    ReservedRule,
    /// `set disable`, `set move` or `set swap` names set 31.
    #[error("set 31 can't be changed")]
    ReservedSet,
    /// `table` destroy, delete, flush or swap names no table.
    #[error("no table has that name")]
    NoSuchTable,
    /// `table add` of a key that is there, or `create` of a table that is there.
    #[error("it is there already")]
    EntryExists,
    /// `table delete` of a key that isn't there.
    #[error("the table has no such key")]
    NoSuchEntry,
    /// `destroy` of a table that a rule names.
    #[error("a rule names the table")]
    TableInUse,
    /// A key, a rule's use or a swap doesn't fit the table's type.
    #[error("the table is of the other type")]
    WrongType,
    /// `add` where 65,535 rules are held, rule 65535 among them.
    #[error("there are 65,535 rules")]
    TooManyRules,
    /// The command would pass 16,777,216 counter numbers, number 0 among them.
    #[error("there are 16,777,216 counters")]
    TooManyCounters,
    /// `add` names a new flow name where there are 64, `default` among them.
    #[error("there are 64 flow names")]
    TooManyNames,
    /// Memory ran out.
    #[error("out of memory")]
    OutOfMemory,
}

impl ApplyFault {
    /// Its own name, as the line about a refused command prints it.
    pub fn word(&self) -> &'static str
        ensures { result.now ≡ word_of self.now }
    {
        match self {
            ApplyFault::NoSuchRule => "NoSuchRule",
            ApplyFault::ReservedRule => "ReservedRule",
            ApplyFault::ReservedSet => "ReservedSet",
            ApplyFault::NoSuchTable => "NoSuchTable",
            ApplyFault::EntryExists => "EntryExists",
            ApplyFault::NoSuchEntry => "NoSuchEntry",
            ApplyFault::TableInUse => "TableInUse",
            ApplyFault::WrongType => "WrongType",
            ApplyFault::TooManyRules => "TooManyRules",
            ApplyFault::TooManyCounters => "TooManyCounters",
            ApplyFault::TooManyNames => "TooManyNames",
            ApplyFault::OutOfMemory => "OutOfMemory",
        }
    }
}

impl From<AllocError> for ApplyFault {
    ghost from_gives = { λ _ fault. fault ≡ OutOfMemory };

    fn from(_error: AllocError) -> ApplyFault {
        ApplyFault::OutOfMemory
    }
}

impl<T: Drop> From<AllocFailed<T>> for ApplyFault {
    ghost from_gives = { λ _ fault. fault ≡ OutOfMemory };

    fn from(_error: AllocFailed<T>) -> ApplyFault {
        ApplyFault::OutOfMemory
    }
}

impl From<fw_base::OutOfMemory> for ApplyFault {
    ghost from_gives = { λ _ fault. fault ≡ OutOfMemory };

    fn from(_error: fw_base::OutOfMemory) -> ApplyFault {
        ApplyFault::OutOfMemory
    }
}
