//! How robots decide between ways that lead equally near.

ghost use Rattle.std.specs.Prelude.{◌≡◌};
ghost use Rattle.fleet_sim.specs.Ties.{random_rank, tie_seed, ties_named};

use fleet_hooks::TieView;
use rand_core::{Rng, SeedableRng};
use rand_xoshiro::Xoshiro256PlusPlus;

/// How robots decide between ways that lead equally near.
#[derive(Clone, Copy, Debug, PartialEq, Eq)]
pub enum Ties {
    /// By the direction: north, east, south, west.
    Plain,
    /// By `random_rank`.
    Random,
}

impl Ties {
    /// The ties of this name: `plain` or `random`.
    pub fn named(name: &str) -> Option<Ties>
        ensures { result ≡ ties_named name.now }
    {
        if name == "plain" {
            Some(Ties::Plain)
        } else if name == "random" {
            Some(Ties::Random)
        } else {
            None
        }
    }
}

/// The seed of the random number for a way.
fn tie_seed(seed: u64, view: TieView) -> u64
    ensures { result ≡ tie_seed seed view }
{
    let robot = view
        .tick
        .wrapping_mul(512)
        .wrapping_add(u64::from(view.robot));
    let way = robot
        .wrapping_mul(4)
        .wrapping_add(u64::from(view.dir.number()));
    seed.wrapping_mul(4_294_967_296).wrapping_add(way)
}

/// The rank of a way in a run with this seed: the highest byte of the first random number of a seed of its own, which is
/// made of this seed, the tick, the robot and the direction. So it is the same in each run, and neither the order of
/// questions nor their number changes it.
pub fn random_rank(seed: u64, view: TieView) -> u8
    ensures { result ≡ random_rank seed view }
{
    let mut random = Xoshiro256PlusPlus::seed_from_u64(tie_seed(seed, view));
    (random.next_u64() / 72_057_594_037_927_936) as u8
}
