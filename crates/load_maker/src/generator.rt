ghost use Rattle.std.specs.Prelude.{◌≡◌};
ghost use Rattle.load_maker.specs.Load as load;

/// A linear congruential generator of 64 bits, which gives its upper 31.
#[derive(Drop)]
pub(crate) struct Generator {
    pub(crate) state: u64,
}

impl Generator {
    /// The next number, below 2^31.
    pub(crate) fn draw(&mut self) -> u32
        ensures state { self.new.state ≡ load.next_draw self.old.state }
        ensures value { result ≡ load.generator_output self.new.state }
    {
        self.state = self
            .state
            .wrapping_mul(6_364_136_223_846_793_005)
            .wrapping_add(1_442_695_040_888_963_407);
        (self.state >> 33) as u32
    }
}
