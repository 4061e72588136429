//! Random numbers below a bound.

ghost use Rattle.std.specs.Prelude.{◌≡◌, ◌<◌, ◌%◌};
ghost use Rattle.rand_core.specs.Stream.{next_u64};
ghost use Rattle.rand_core.specs.Steps.{stream_of, steps_u64_high};
ghost use Rattle.rand_xoshiro.specs.Xoshiro256.{plus_plus};

use rand_core::Rng;
use rand_xoshiro::Xoshiro256PlusPlus;

/// The next number of the generator, modulo the bound.
pub(crate) fn below(random: &mut Xoshiro256PlusPlus, bound: usize) -> usize
    requires { 0 < bound }
    ensures below { result < bound }
    ensures drawn { result ≡ (next_u64 (stream_of (steps_u64_high plus_plus) random.old)).0 % bound }
{
    (random.next_u64() % bound as u64) as usize
}
