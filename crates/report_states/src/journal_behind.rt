ghost use Rattle.std.specs.Prelude.{◌≡◌, ℕ, Ok, List, IfOk, IfErr};
ghost use Rattle.std.specs.List.{AllByRecursion};
ghost use Rattle.fw_command.specs.WellFormed.{IsStepInRange};
ghost use Rattle.replay_setup.specs.FirstEdition.{GivesView, first_edition};
ghost use Rattle.report_states.specs.Behind.{HasCause, IsJournalBehind};

use crate::StatesFault;
use fw_command::Pace;
use replay_setup::{FirstEdition, ScriptError, read_first_edition};
use run_audit::{AuditFault, open_journal};
use state_journal::Book;
use std::alloc::Global;

/// What the script gives before a packet is read. In which mode it ran makes no difference: live mode
/// has no `after`, which alone is read in another way there.
fn first_of(alloc: Global, script: &[u8]) -> Result<FirstEdition, StatesFault>
    ensures made { IfOk result (λ first. first_edition Pace.Serial script.now ≡ Ok first) }
    ensures formed { IfOk result (λ first. AllByRecursion IsStepInRange first.live) }
    ensures wrong { IfErr result (λ fault. (lines : List ℕ) → HasCause script.now lines fault) }
{
    match read_first_edition(alloc, Pace::Serial, script) {
        Ok(first) => Ok(first),
        Err(ScriptError::OutOfMemory) => Err(StatesFault::OutOfMemory),
        Err(ScriptError::Fault(fault)) => Err(StatesFault::Script(ScriptError::Fault(fault))),
        Err(ScriptError::Refused(line)) => Err(StatesFault::Script(ScriptError::Refused(line))),
    }
}

/// The states with the journal that these lines tell, by the script behind them.
pub(crate) fn journal_behind(
    alloc: Global,
    script: &[u8],
    lines: &[u8],
) -> Result<Book, StatesFault>
    ensures told { IfOk result (IsJournalBehind script.now lines.now) }
    ensures wrong { IfErr result (HasCause script.now lines.now) }
{
    let FirstEdition { config, live, .. } = first_of(alloc, script)?;
    match open_journal(alloc, lines, config, live.as_slice()) {
        Ok(book) => Ok(book),
        Err(AuditFault::Wrong { line }) => Err(StatesFault::Line(line)),
        Err(AuditFault::OutOfMemory) => Err(StatesFault::OutOfMemory),
    }
}
