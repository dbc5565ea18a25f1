ghost use Rattle.std.specs.Prelude.{◌≡◌, ◌≤◌, length, true, IfOk, OnOk};
ghost use Rattle.fw_base.specs.Faults.{HasCause};
ghost use Rattle.pcap_read.specs.Window.{Fills};

use crate::window::Window;
use fw_base::{Failed, Source};

/// Reads until the window holds that many bytes. Answers whether it does: it may not at the source's
/// end.
#[inline(always)]
pub(crate) fn fill<S: Source>(
    window: &mut Window,
    source: &mut S,
    wanted: usize,
) -> Result<bool, Failed>
    requires { wanted ≤ 262160 }
    ensures fills { Fills (S.left source.old) (S.left source.new) window.old window.new wanted
        result }
    ensures enough { IfOk result (λ enough. enough ≡ true → wanted ≤ length window.new) }
    ensures cause { HasCause (S.faults source.old) (S.faults source.new) result }
    ensures steady { OnOk result (S.faults source.new ≡ S.faults source.old) }
{
    while window.len() < wanted {
        if window.refill(source)? == 0 {
            return Ok(false);
        }
    }
    Ok(true)
}
