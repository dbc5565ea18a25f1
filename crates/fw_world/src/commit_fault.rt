ghost use Rattle.std.specs.Prelude.{◌≡◌};
ghost use Rattle.fw_world.specs.CommitFaults.{commit_fault};

use fw_base::OutOfMemory;
use rule_edits::ApplyFault;
use thiserror::Error;

/// Why nothing was published. World and desk are as they were.
#[derive(Clone, Copy, Debug, PartialEq, Eq, Error)]
pub enum CommitFault {
    /// The command is refused.
    #[error("{0}")]
    Refused(ApplyFault),
    /// Memory ran out.
    #[error("out of memory")]
    OutOfMemory,
}

impl From<OutOfMemory> for CommitFault {
    ghost use Rattle.std.specs.Prelude.{◌≡◌};
    ghost use Rattle.fw_world.specs.CommitFaults.{commit_fault};
    ghost use Rattle.fw_world.specs.declared.commit_fault.CommitFault.TheVariants as fault;

    ghost from_gives = { λ _ got. got ≡ fault.OutOfMemory };

    fn from(_error: OutOfMemory) -> CommitFault {
        CommitFault::OutOfMemory
    }
}

/// The fault of a commit whose command is refused so.
pub(crate) fn refusal(fault: ApplyFault) -> CommitFault
    ensures { result ≡ commit_fault fault }
{
    match fault {
        ApplyFault::OutOfMemory => CommitFault::OutOfMemory,
        ApplyFault::NoSuchRule
        | ApplyFault::ReservedRule
        | ApplyFault::ReservedSet
        | ApplyFault::NoSuchTable
        | ApplyFault::EntryExists
        | ApplyFault::NoSuchEntry
        | ApplyFault::TableInUse
        | ApplyFault::WrongType
        | ApplyFault::TooManyRules
        | ApplyFault::TooManyCounters
        | ApplyFault::TooManyNames => CommitFault::Refused(fault),
    }
}
