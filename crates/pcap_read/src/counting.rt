ghost use Rattle.std.specs.Prelude.{◌≡◌, ◌≤◌, ℕ, List, Some, IfOk, IfErr};
ghost use Rattle.pcap_read.specs.Capture.{Finishes, IsRefused};
ghost use Rattle.pcap_read.specs.Counting.{IsCounted, IsExact, IsExactFault};

use crate::capture::Capture;
use crate::capture_fault::{CaptureFault, OpenFault};
use crate::limits::MOST_RECORDS;
use fw_base::Source;
use std::alloc::Global;

/// Reads a source as a capture of at most `limit` records, 1 to 4,194,304, to the place where they end, and
/// counts them.
pub fn count_records<S: Source>(
    alloc: Global,
    source: S,
    limit: u32,
) -> Result<Counted<S>, OpenFault<S>>
    requires some { 1 ≤ limit }
    requires most { limit ≤ MOST_RECORDS }

    // The bytes that it took have so many records, and a reader stops so behind them.
    ensures counted { IfOk result (IsCounted S.left S.faults limit source) }
    ensures refused { IfErr result (IsRefused S.left S.faults limit source) }

    // Where the source tells its bytes and didn't fail, the count and the fault are those of all of them.
    ensures exact { (whole : List ℕ) → S.left source ≡ Some whole
        → IfOk result (IsExact limit whole) }
    ensures exact_fault { (whole : List ℕ) → S.left source ≡ Some whole
        → IfErr result (IsExactFault limit whole) }
{
    match Capture::open(alloc, source, limit) {
        Ok(mut capture) => {
            let (records, fault) = count_rest(&mut capture);
            Ok(Counted {
                records,
                fault,
                source: capture.close(),
            })
        }
        Err(refused) => Err(refused),
    }
}

/// Reads a capture to the place where its records end. Answers how many more records it gave, and the
/// fault that it stopped with, or `None` at its end.
fn count_rest<S: Source>(capture: &mut Capture<S>) -> (u32, Option<CaptureFault>)
    ensures { Finishes S.left S.faults capture.old capture.new result.0 result.1 }
{
    let mut count = 0u32;
    loop {
        match capture.next() {
            Ok(Some(_)) => count += 1,
            Ok(None) => return (count, None),
            Err(fault) => return (count, Some(fault)),
        }
    }
}

/// What a capture came to that was read to the place where its records end.
#[derive(Drop)]
pub struct Counted<S> {
    /// How many records it has.
    pub records: u32,
    /// The fault that stands behind them; `None` at the end of a whole capture.
    pub fault: Option<CaptureFault>,
    /// The source, with the bytes that were not taken.
    pub source: S,
}
