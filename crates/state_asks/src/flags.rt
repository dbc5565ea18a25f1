ghost use Rattle.std.specs.Prelude.{◌≡◌, ◌<◌};
ghost use Rattle.state_asks.specs.Flags as spec;

/// Of a TCP header's flags those that a state keeps: FIN 1, SYN 2 and RST 4 (RFC 9293 section 3.1).
#[inline(always)]
pub fn kept_flags(flags: u8) -> u8
    ensures value { result ≡ spec.kept_flags flags }
    ensures few { result < 8 }
{
    flags & 7
}
