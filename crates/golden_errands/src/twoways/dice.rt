//! The random numbers of a trial: those of a seed, with bounds that may be 0.

use test_kit::Random;

/// A random sequence that texts are made of.
#[derive(Clone, Copy)]
pub(crate) struct Dice {
    random: Random,
}

impl Dice {
    /// The numbers from a seed on.
    pub(crate) fn from_seed(seed: u64) -> Dice {
        Dice {
            random: Random::from_seed(seed),
        }
    }

    /// The next number, below a bound; 0 where the bound is.
    pub(crate) fn below(&mut self, bound: u64) -> u64 {
        self.random.below((bound as usize).max(1)) as u64
    }

    /// The next number from a least one on, one of this many.
    pub(crate) fn between(&mut self, least: u64, count: u64) -> u64 {
        least.saturating_add(self.below(count))
    }
}
