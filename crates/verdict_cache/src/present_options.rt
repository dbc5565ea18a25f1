ghost use Rattle.std.specs.Prelude.{◌≡◌};
ghost use Rattle.verdict_cache.specs.Key as spec;

use packet_headers::Ip4;
use rule_match::{LOOSE_SOURCE_ROUTE, RECORD_ROUTE, STRICT_SOURCE_ROUTE, TIME_STAMP};

/// Which of the IP options that rules can name a header has (ipfw(8), `ipoptions`).
#[derive(Clone, Copy, PartialEq, Eq, Hash)]
pub struct PresentOptions {
    pub strict_source_route: bool,
    pub loose_source_route: bool,
    pub record_route: bool,
    pub time_stamp: bool,
}

/// Those of the packet's header.
pub(crate) fn present_options(packet: &Ip4<'_>) -> PresentOptions
    ensures { result ≡ spec.present_options packet.now.options }
{
    PresentOptions {
        strict_source_route: packet.has_option(STRICT_SOURCE_ROUTE),
        loose_source_route: packet.has_option(LOOSE_SOURCE_ROUTE),
        record_route: packet.has_option(RECORD_ROUTE),
        time_stamp: packet.has_option(TIME_STAMP),
    }
}
