//! Pseudo-random numbers, which are the same in each run.

ghost use Rattle.std.specs.Prelude.{◌≡◌, ◌<◌};
ghost use Rattle.test_kit.specs.Random.{next_seed, drawn};

/// A linear congruential sequence, with the constants of Knuth's MMIX.
#[derive(Clone, Copy, Debug)]
pub struct Random {
    /// The state from which the next number is computed.
    pub seed: u64,
}

impl Random {
    /// The sequence that begins with a seed.
    pub fn from_seed(seed: u64) -> Random
        ensures { result.seed ≡ seed }
    {
        Random { seed }
    }

    /// The next number below a bound: the upper bits of the next seed, modulo the bound.
    pub fn below(&mut self, bound: usize) -> usize
        requires { 0 < bound }
        ensures below { result < bound }
        ensures drawn { result ≡ drawn self.new.seed bound }
        ensures seed { self.new.seed ≡ next_seed self.old.seed }
    {
        self.seed = self
            .seed
            .wrapping_mul(6364136223846793005)
            .wrapping_add(1442695040888963407);
        ((self.seed >> 33) % bound as u64) as usize
    }
}
