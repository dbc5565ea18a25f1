ghost use Rattle.std.specs.Prelude.{◌≡◌};
ghost use Rattle.view_driver.specs.declared.trouble.Trouble.TheVariants.{OutOfMemory as NoMemory};
ghost use Rattle.view_driver.specs.Run as spec;

use command_words::CaptureWord;
use fw_base::OutOfMemory;
use pcap_read::CaptureFault;
use replay_setup::ScriptError;
use report_flows::FlowsFault;
use report_states::StatesFault;
use report_values::Journal;
use std::alloc::{AllocFailed, Global};

/// Why there is nothing to show.
#[derive(Clone, Copy)]
pub(crate) enum Trouble<'a> {
    /// The words are no command.
    Usage,
    /// A name that couldn't be opened or read.
    Unread(&'a [u8]),
    /// The text of that name is no report: which line isn't one that a report has there.
    NoReport(&'a [u8], u64),
    /// The script gives no edition.
    Script(ScriptError),
    /// The report of that name has no journal.
    NoJournal(&'a [u8]),
    /// This line of the report isn't what the script of that name gives.
    OtherScript {
        report: &'a [u8],
        line: u64,
        script: &'a [u8],
    },
    /// The reports don't have as many captures.
    Captures {
        old: u64,
        new: u64,
    },
    /// A capture doesn't have as many records in both reports.
    Records {
        capture: u64,
        old: u64,
        new: u64,
    },
    /// So many captures are in the reports, and so many others were named.
    Named {
        told: u64,
        named: u64,
    },
    /// The capture of that name has so many records in the reports, and so many others by itself.
    OtherRecords {
        name: &'a [u8],
        told: u64,
        read: u64,
    },
    /// The capture of that name can't be read further than to this record; 0 stands for its header.
    Capture {
        name: &'a [u8],
        record: u64,
        fault: CaptureFault,
    },
    OutOfMemory,
}

impl From<OutOfMemory> for Trouble<'_> {
    ghost from_gives = { λ _ trouble. trouble ≡ NoMemory };

    fn from(_error: OutOfMemory) -> Self {
        Trouble::OutOfMemory
    }
}

impl<T: Drop> From<AllocFailed<T>> for Trouble<'_> {
    ghost from_gives = { λ _ trouble. trouble ≡ NoMemory };

    fn from(_error: AllocFailed<T>) -> Self {
        Trouble::OutOfMemory
    }
}

/// The name of the capture of this number, from 1.
fn name_of<'a>(captures: &[CaptureWord<'a>], number: u64) -> &'a [u8]
    ensures { result.now ≡ spec.name_at (spec.names_of captures.now) number }
{
    match captures.get(number.saturating_sub(1) as usize) {
        Some(capture) => capture.name,
        None => b"",
    }
}

/// The trouble of flows that aren't told.
pub(crate) fn without_flows<'a>(captures: &[CaptureWord<'a>], fault: FlowsFault) -> Trouble<'a>
    ensures { spec.IsFlowsTrouble (spec.names_of captures.now) fault result }
{
    match fault {
        FlowsFault::Captures { told, given } => Trouble::Named { told, named: given },
        FlowsFault::Records {
            capture,
            told,
            read,
        } => Trouble::OtherRecords {
            name: name_of(captures, capture),
            told,
            read,
        },
        FlowsFault::Capture {
            capture,
            record,
            fault,
        } => Trouble::Capture {
            name: name_of(captures, capture),
            record,
            fault,
        },
        FlowsFault::OutOfMemory => Trouble::OutOfMemory,
    }
}

/// The trouble of the journal of a report whose live states aren't told.
pub(crate) fn without_states<'a>(
    names: (&'a [u8], &'a [u8]),
    journal: &Journal<'_>,
    fault: StatesFault,
) -> Trouble<'a>
    ensures { spec.TellsFault fault result }
{
    let (report, script) = names;
    match fault {
        StatesFault::Script(error) => Trouble::Script(error),
        StatesFault::Line(line) => Trouble::OtherScript {
            report,
            line: journal.line.saturating_add(line).saturating_sub(1),
            script,
        },
        StatesFault::OutOfMemory => Trouble::OutOfMemory,
    }
}
