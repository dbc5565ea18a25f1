ghost use Rattle.std.specs.Prelude.{◌≡◌};
ghost use Rattle.report_texts.specs.CaptureEnds as ends;

use pcap_read::CaptureFault;
use report_texts::CaptureEnd;

/// Whether the capture ended because its source failed.
pub fn is_unread(end: &CaptureEnd) -> bool
    ensures { result ≡ ends.is_unread end.now }
{
    match end {
        CaptureEnd::Read { .. } => false,
        CaptureEnd::Stopped { fault, .. } => *fault == CaptureFault::ReadFault,
    }
}
