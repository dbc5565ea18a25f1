ghost use Rattle.std.specs.Prelude.{◌≡◌};
ghost use Rattle.report_flows.specs.declared.flows_fault.FlowsFault.TheVariants.{OutOfMemory};

use fw_base::OutOfMemory as NoMemory;
use pcap_read::CaptureFault;
use std::alloc::AllocError;

/// Why the flows of moves aren't told.
#[derive(Clone, Copy)]
pub enum FlowsFault {
    /// So many captures are in the reports, and so many others were given.
    Captures {
        told: u64,
        given: u64,
    },
    /// The capture of this number, from 1, has so many records in the reports, and so many others by itself.
    Records {
        capture: u64,
        told: u64,
        read: u64,
    },
    /// The capture of this number can't be read further. The record is the one at which the fault stands, from 1, and
    /// 0 for the capture's header.
    Capture {
        capture: u64,
        record: u64,
        fault: CaptureFault,
    },
    OutOfMemory,
}

impl From<NoMemory> for FlowsFault {
    ghost from_gives = { λ _ fault. fault ≡ OutOfMemory };

    fn from(_error: NoMemory) -> FlowsFault {
        FlowsFault::OutOfMemory
    }
}

impl From<AllocError> for FlowsFault {
    ghost from_gives = { λ _ fault. fault ≡ OutOfMemory };

    fn from(_error: AllocError) -> FlowsFault {
        FlowsFault::OutOfMemory
    }
}
