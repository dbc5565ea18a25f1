ghost use Rattle.std.specs.Prelude.{◌<◌};

/// Numbers that look random and are the same each time (Knuth's MMIX, a linear congruential generator).
#[derive(Clone, Copy, Debug)]
pub struct Numbers {
    state: u64,
}

impl Numbers {
    /// Those that this one begins.
    pub fn new(state: u64) -> Numbers {
        Numbers { state }
    }

    /// The next, below a bound.
    pub fn below(&mut self, bound: u32) -> u32
        requires { 0 < bound }
        ensures { result < bound }
    {
        let next = self.state.wrapping_mul(6_364_136_223_846_793_005);
        self.state = next.wrapping_add(1_442_695_040_888_963_407);
        (self.state >> 33) as u32 % bound
    }
}
