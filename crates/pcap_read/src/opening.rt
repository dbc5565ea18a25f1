ghost use Rattle.std.specs.Prelude.{◌≡◌, ◌≤◌, []};
ghost use Rattle.fw_base.specs.Faults.{Rose};
ghost use Rattle.std.specs.Io.KnownBytes.{IsAtEnd};
ghost use Rattle.pcap_read.specs.Causes.{HasOwnCause};
ghost use Rattle.pcap_read.specs.Opening.{TakesHeader};

use crate::capture_fault::CaptureFault;
use crate::filling::fill;
use crate::format::Format;
use crate::header::{HEADER_LENGTH, read_header};
use crate::window::Window;
use fw_base::Source;

/// Reads a capture's header and lets it go.
pub(crate) fn take_header<S: Source>(
    window: &mut Window,
    source: &mut S,
) -> Result<Format, CaptureFault>
    requires { window.old ≡ [] }
    ensures takes { TakesHeader (S.left source.old) (S.left source.new)
        (Rose (S.faults source.old) (S.faults source.new)) window.new result }
    ensures cause { HasOwnCause (S.faults source.old) (S.faults source.new) result }
    ensures later { S.faults source.old ≤ S.faults source.new }
{
    if !fill(window, source, HEADER_LENGTH)? {
        return Err(CaptureFault::ShortHeader);
    }
    let format = read_header(window.bytes())?;
    window.skip(HEADER_LENGTH);
    Ok(format)
}
