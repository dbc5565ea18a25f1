ghost use Rattle.std.specs.Prelude.{◌≡◌, ◌≤◌};
ghost use Rattle.std.specs.Io.KnownBytes.{IsAtEnd};
ghost use Rattle.fw_base.specs.Faults.{Rose};
ghost use Rattle.pcap_read.specs.Window.{Grows};
ghost use Rattle.pcap_read.specs.Causes.{HasOwnCause};
ghost use Rattle.pcap_read.specs.Finding.{Finds};

use crate::capture_fault::CaptureFault;
use crate::filling::fill;
use crate::format::Format;
use crate::limits::MOST_RECORD_BYTES;
use crate::numbers::u32_at;
use crate::window::Window;
use fw_base::Source;

/// The length of a record's header.
pub(crate) const RECORD_HEADER_LENGTH: usize = 16;

/// Reads until the next record is whole at the front of the window. Answers how many bytes it takes
/// with its header, or `None` at the end of the capture. Of `limit` records `given` were given before.
pub(crate) fn find_record<S: Source>(
    window: &mut Window,
    source: &mut S,
    format: Format,
    limit: u32,
    given: u32,
) -> Result<Option<usize>, CaptureFault>
    ensures grows { Grows (S.left source.old) (S.left source.new) window.old window.new }
    ensures later { S.faults source.old ≤ S.faults source.new }
    ensures cause { HasOwnCause (S.faults source.old) (S.faults source.new) result }
    ensures finds { Finds (IsAtEnd (S.left source.new))
        (Rose (S.faults source.old) (S.faults source.new))
        limit format given window.new result }
{
    if !fill(window, source, 1)? {
        return Ok(None);
    }
    if given >= limit {
        return Err(CaptureFault::TooManyPackets);
    }
    if !fill(window, source, RECORD_HEADER_LENGTH)? {
        return Err(CaptureFault::ShortRecordHeader);
    }
    let captured = u32_at(format.order, 8, window.bytes());
    if captured as usize > MOST_RECORD_BYTES {
        return Err(CaptureFault::RecordTooLong);
    }
    let size = RECORD_HEADER_LENGTH + captured as usize;
    if !fill(window, source, size)? {
        return Err(CaptureFault::ShortRecord);
    }
    Ok(Some(size))
}
