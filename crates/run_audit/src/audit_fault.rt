ghost use Rattle.std.specs.Prelude.{◌≡◌};
ghost use Rattle.run_audit.specs.declared.audit_fault.AuditFault.TheVariants as fault;

use fw_base::OutOfMemory;
use std::alloc::AllocError;

/// Why a report isn't that of a legal record.
#[derive(Clone, Copy)]
pub enum AuditFault {
    /// This line of the report is the first that is wrong, from 1; where a line lacks, it is one
    /// past the last.
    Wrong { line: u64 },
    /// Memory ran out.
    OutOfMemory,
}

impl From<OutOfMemory> for AuditFault {
    ghost from_gives = { λ _ got. got ≡ fault.OutOfMemory };

    fn from(_error: OutOfMemory) -> AuditFault {
        AuditFault::OutOfMemory
    }
}

impl From<AllocError> for AuditFault {
    ghost from_gives = { λ _ got. got ≡ fault.OutOfMemory };

    fn from(_error: AllocError) -> AuditFault {
        AuditFault::OutOfMemory
    }
}
