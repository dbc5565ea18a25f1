ghost use Rattle.std.specs.Prelude.{◌≡◌, ◌<◌};
ghost use Rattle.fw_rule.specs.Bits as spec;

/// Whether the mask has that bit, 0 to 31; bit 0 is the one of value 1.
pub fn has_bit(mask: u32, bit: u32) -> bool
    requires { bit < 32 }
    ensures { result ≡ spec.has_bit mask bit }
{
    (mask >> bit) % 2 == 1
}
