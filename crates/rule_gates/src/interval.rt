ghost use Rattle.std.specs.Prelude.{◌≡◌, ◌+◌, ◌-◌, ◌*◌, ◌/◌, ◌^◌, ◌<◌};

/// The numbers from `low` on, `span` and one of them.
#[derive(Clone, Copy, PartialEq, Eq)]
pub struct Interval {
    pub(crate) low: u32,
    pub(crate) span: u32,
    ghost fits: { low + span < 2 ^ 32 },
}

impl Interval {
    /// Every number.
    pub(crate) fn every() -> Interval
        ensures low { result.low ≡ 0 }
        ensures span { result.span ≡ u32.MAX }
    {
        Interval {
            low: 0,
            span: u32::MAX,
        }
    }

    /// The numbers that are this one but for that many last bits.
    pub(crate) fn block(number: u32, free_bits: u8) -> Interval
        requires { free_bits < 32 }
        ensures low { result.low ≡ number / 2 ^ free_bits * 2 ^ free_bits }
        ensures span { result.span ≡ 2 ^ free_bits - 1 }
    {
        Interval {
            low: number >> free_bits << free_bits,
            span: (1 << free_bits) - 1,
        }
    }
}
