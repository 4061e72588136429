//! Sums of numbers, and their order.

ghost use Rattle.std.specs.Prelude.{◌≡◌, ◌*◌, ◌≤◌, take, drop, length, IfOk};
ghost use Rattle.fleet_stats.specs.Figures.{total, IsOrdered, window_count, windows_below, windows_of};

use std::alloc::{AllocError, Global};

/// The sum of the numbers, at most 2^64 - 1.
pub(crate) fn total(numbers: &[u64]) -> u64
    ensures { result ≡ total numbers.now }
{
    numbers
        .iter()
        .fold(0, |sum: u64, number| sum.saturating_add(*number))
}

/// The same numbers, from the least to the greatest.
pub(crate) fn ordered(numbers: Vec<u64>) -> Vec<u64>
    ensures { IsOrdered numbers.items result.items }
{
    let mut numbers = numbers;
    numbers.sort_unstable();
    numbers
}

/// At most 100 numbers, from a place on.
fn window_at(numbers: &[u64], start: usize) -> &[u64]
    requires { start ≤ length numbers.now }
    ensures { result.now ≡ take 100 (drop start numbers.now) }
{
    if numbers.len() - start <= 100 {
        &numbers[start..]
    } else {
        &numbers[start..start + 100]
    }
}

/// How many windows of 100 there are.
fn window_count(numbers: usize) -> usize
    ensures { result ≡ window_count numbers }
{
    if numbers % 100 == 0 {
        numbers / 100
    } else {
        numbers / 100 + 1
    }
}

/// The sums of the numbers over windows of 100.
pub(crate) fn windows_of(alloc: Global, numbers: &[u64]) -> Result<Vec<u64>, AllocError>
    ensures { IfOk result (λ sums. sums.items ≡ windows_of numbers.now) }
{
    let mut sums = Vec::new(alloc);
    for window in 0..window_count(numbers.len()) {
        sums.push(total(window_at(numbers, window * 100)))?;
    }
    Ok(sums)
}
