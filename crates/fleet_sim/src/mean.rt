//! Means over runs.

ghost use Rattle.std.specs.Prelude.{◌≡◌};
ghost use Rattle.fleet_sim.specs.Table.{mean_of, IsDeviation, apart, square_sum};

/// The sum of the numbers, at most 2^64 - 1, by how many there are; 0 if there are none.
pub(crate) fn mean_of(numbers: &[u64]) -> u64
    ensures { result ≡ mean_of numbers.now }
{
    let sum = numbers
        .iter()
        .fold(0, |sum: u64, number| sum.saturating_add(*number));
    sum / (numbers.len() as u64).max(1)
}

/// How far apart two numbers are.
fn apart(a: u64, b: u64) -> u64
    ensures { result ≡ apart a b }
{
    if a < b { b - a } else { a - b }
}

/// The sum of the squares of the differences from a number, at most 2^128 - 1.
fn square_sum(numbers: &[u64], from: u64) -> u128
    ensures { result ≡ square_sum numbers.now from }
{
    numbers.iter().fold(0, |sum: u128, number| {
        let far = apart(*number, from) as u128;
        sum.saturating_add(far * far)
    })
}

/// The standard deviation of two or more numbers, rounded down: the root of the sum of the squares of the differences from
/// the mean by one less than there are.
pub(crate) fn deviation_of(numbers: &[u64]) -> u64
    ensures { IsDeviation numbers.now result }
{
    let by = (numbers.len() as u128).saturating_sub(1).max(1);
    let variance = square_sum(numbers, mean_of(numbers)) / by;
    variance.isqrt() as u64
}
