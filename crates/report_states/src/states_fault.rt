ghost use Rattle.std.specs.Prelude.{◌≡◌};
ghost use Rattle.report_states.specs.declared.states_fault.StatesFault.TheVariants as fault;

use fw_base::OutOfMemory;
use replay_setup::ScriptError;
use std::alloc::AllocError;

/// Why a journal tells no live states.
#[derive(Clone, Copy)]
pub enum StatesFault {
    /// The script gives no edition.
    Script(ScriptError),
    /// This line of the journal, from 1, is the first that isn't what the script gives; where a line
    /// lacks, it is one past the last.
    Line(u64),
    /// Memory ran out.
    OutOfMemory,
}

impl From<OutOfMemory> for StatesFault {
    ghost from_gives = { λ _ got. got ≡ fault.OutOfMemory };

    fn from(_error: OutOfMemory) -> StatesFault {
        StatesFault::OutOfMemory
    }
}

impl From<AllocError> for StatesFault {
    ghost from_gives = { λ _ got. got ≡ fault.OutOfMemory };

    fn from(_error: AllocError) -> StatesFault {
        StatesFault::OutOfMemory
    }
}
