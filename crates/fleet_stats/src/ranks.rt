//! Percentiles of numbers.

ghost use Rattle.std.specs.Prelude.{◌≡◌};
ghost use Rattle.fleet_stats.specs.Figures.{ranks_of, AreRanks};

use crate::spread::{ordered, total};
use crate::tick::number_at;

/// Figures of some numbers. If there are none, all are 0.
#[derive(Clone, Copy, Debug, PartialEq, Eq)]
pub struct Ranks {
    pub count: u64,
    /// Their sum, at most 2^64 - 1.
    pub total: u64,
    /// The least number that is not exceeded by half of them, rounded up.
    pub median: u64,
    /// The least number that is not exceeded by 9 of 10, rounded up.
    pub ninetieth: u64,
    /// The least number that is not exceeded by 99 of 100, rounded up.
    pub ninety_ninth: u64,
    pub greatest: u64,
}

/// The figures of ordered numbers.
fn ranks_of(numbers: &[u64]) -> Ranks
    ensures { result ≡ ranks_of numbers.now }
{
    let count = numbers.len();
    Ranks {
        count: count as u64,
        total: total(numbers),
        median: number_at(numbers, count.saturating_sub(1) / 2),
        ninetieth: number_at(numbers, (count - count / 10).saturating_sub(1)),
        ninety_ninth: number_at(numbers, (count - count / 100).saturating_sub(1)),
        greatest: number_at(numbers, count.saturating_sub(1)),
    }
}

/// The figures of numbers in any order.
pub fn ranked(numbers: Vec<u64>) -> Ranks
    ensures { AreRanks numbers.items result }
{
    let numbers = ordered(numbers);
    ranks_of(&numbers)
}
