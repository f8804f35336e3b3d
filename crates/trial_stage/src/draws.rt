ghost use Rattle.std.specs.Prelude.{◌≡◌, ◌+◌, ◌*◌, ◌/◌, ◌%◌, ◌^◌, ◌<◌};

/// Numbers that are drawn one after another, the same for each run of a seed: the upper 31 bits of a linear congruential generator of 64
/// bits, with the multiplier and increment of Knuth's MMIX.
#[derive(Clone, Copy)]
pub struct Draws {
    state: u64,
}

impl Draws {
    /// The draws of a seed.
    pub fn new(seed: u64) -> Draws
        ensures { result.state ≡ seed }
    {
        Draws { state: seed }
    }

    /// A number below `bound`, or 0 where there is none.
    pub fn below(&mut self, bound: usize) -> usize
        ensures state { self.new.state ≡ (self.old.state * 6364136223846793005 + 1442695040888963407) % 2 ^ 64 }
        ensures drawn { 0 < bound → result ≡ (self.new.state / 2 ^ 33) % bound }
        ensures none { bound ≡ 0 → result ≡ 0 }
    {
        self.state = self
            .state
            .wrapping_mul(6_364_136_223_846_793_005)
            .wrapping_add(1_442_695_040_888_963_407);
        if bound == 0 {
            return 0;
        }
        (self.state >> 33) as usize % bound
    }

    /// True once in so many draws.
    pub fn once_in(&mut self, bound: usize) -> bool {
        self.below(bound) == 0
    }
}
