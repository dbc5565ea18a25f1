ghost use Rattle.std.specs.Prelude.{◌≡◌};
ghost use Rattle.serial_schedule.specs.Order.{is_before};

/// When a record was captured.
#[derive(Clone, Copy)]
pub struct Moment {
    /// Seconds, as the capture has them.
    pub second: u32,
    /// The fraction in nanoseconds; it isn't limited.
    pub nanos: u64,
}

impl Moment {
    /// Whether it is before another; the second counts before the fraction.
    pub fn is_before(self, other: Moment) -> bool
        ensures { result ≡ is_before self other }
    {
        self.second < other.second || (self.second == other.second && self.nanos < other.nanos)
    }
}
