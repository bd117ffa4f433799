//! Numbers without a visible order, the same in each run.
ghost use Rattle.std.specs.Prelude.{◌<◌};

/// A linear congruential generator: each state is the one before times 6364136223846793005 plus 1442695040888963407,
/// modulo 2^64.
#[derive(Drop)]
pub struct Numbers {
    state: u64,
}

impl Numbers {
    /// The numbers of a seed.
    pub fn new(seed: u64) -> Numbers {
        Numbers { state: seed }
    }

    /// The next number, below `bound`. It is taken of the state's upper half, whose bits repeat late.
    pub fn below(&mut self, bound: u32) -> u32
        requires { 0 < bound }
        ensures { result < bound }
    {
        self.state = self
            .state
            .wrapping_mul(6_364_136_223_846_793_005)
            .wrapping_add(1_442_695_040_888_963_407);
        (self.state >> 32) as u32 % bound
    }
}
