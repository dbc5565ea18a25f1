use pcap_read::CaptureFault;

/// How a capture ended.
#[derive(Clone, Copy)]
pub enum CaptureEnd {
    /// At its end, behind so many records.
    Read {
        records: u64,
    },
    /// With a fault at a record, from 1; in the capture's header it is record 0. `count` is its source's
    /// count of faults.
    Stopped {
        at: u64,
        fault: CaptureFault,
        count: u64,
    },
}
