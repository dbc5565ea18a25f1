ghost use Rattle.std.specs.Prelude.{◌≡◌, ◌≤◌, ◌↔◌, IsSome, IfSome};
ghost use Rattle.fw_base.specs.PortRange.{Ports};

use std::marker::Model;

/// The ports from `low` to `high`, both among them; `low` is at most `high`.
#[derive(Clone, Copy)]
pub struct PortRange {
    low: u16,
    high: u16,
}

impl Model for PortRange {
    ghost Value = { Ports };

    ghost view = { λ r. record { low = r.low; high = r.high } };

    ghost invariant = { λ r. r.low ≤ r.high };

    ghost inverse = { λ p. record { low = p.low; high = p.high } };
}

impl PortRange {
    /// The range; `None` exactly where `low` is above `high`.
    pub fn new(low: u16, high: u16) -> Option<PortRange>
        ensures ordered { IsSome result ↔ (low ≤ high) }
        ensures value { IfSome result (λ range. range ≡ record { low = low; high = high }) }
    {
        if low <= high {
            Some(PortRange { low, high })
        } else {
            None
        }
    }

    /// The lowest port.
    pub fn low(&self) -> u16
        ensures value { result ≡ self.now.low }
        ensures ordered { self.now.low ≤ self.now.high }
    {
        self.low
    }

    /// The highest port.
    pub fn high(&self) -> u16
        ensures value { result ≡ self.now.high }
        ensures ordered { self.now.low ≤ self.now.high }
    {
        self.high
    }
}
