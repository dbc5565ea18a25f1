ghost use Rattle.std.specs.Prelude.{◌<◌};

/// Numbers that look random, the same in each run: a linear congruential generator modulo 2^64.
#[derive(Drop)]
pub struct Numbers {
    state: u64,
}

impl Numbers {
    pub fn new(seed: u64) -> Numbers {
        Numbers { state: seed }
    }

    /// The next one.
    pub fn any(&mut self) -> u32 {
        self.state = self
            .state
            .wrapping_mul(6_364_136_223_846_793_005)
            .wrapping_add(1_442_695_040_888_963_407);
        (self.state >> 32) as u32
    }

    /// The next one, below this end.
    pub fn below(&mut self, end: u32) -> u32
        requires { 0 < end }
        ensures { result < end }
    {
        self.any() % end
    }

    /// The next one, a byte.
    pub fn byte(&mut self) -> u8 {
        (self.any() % 256) as u8
    }

    /// True once in so many times.
    pub fn once_in(&mut self, times: u32) -> bool
        requires { 0 < times }
    {
        self.any() % times == 0
    }
}
