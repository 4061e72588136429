//! The checksum of a map.

ghost use Rattle.std.specs.Prelude.{◌≡◌, ◌<◌};
ghost use Rattle.fleet_site.specs.Checksum.{after_cell, checksum, first_sum, modulus, sum_of};

use fleet_grid::Grid;

/// All sums are below this prime, so that each number is exact where numbers are floating-point ones.
const MODULUS: u64 = 9_007_199_254_740_881;

/// The sum with one more cell.
fn after_cell(sum: u64, is_floor: bool) -> u64
    requires { sum < modulus }
    ensures exact { result ≡ after_cell sum is_floor }
    ensures below { result < modulus }
{
    let digit = if is_floor { 2 } else { 1 };
    (sum * 257 + digit) % MODULUS
}

/// The sum of the sides.
fn first_sum(height: u32, width: u32) -> u64
    ensures exact { result ≡ first_sum height width }
    ensures below { result < modulus }
{
    (u64::from(height) * 65_537 + u64::from(width)) % MODULUS
}

/// The checksum of a map, by its sides and by which cells are floor. Other maps have the same one by chance only.
pub fn checksum(grid: &Grid) -> u64
    ensures { result ≡ checksum grid.now }
{
    let mut sum = first_sum(grid.height(), grid.width());
    for cell in 0..grid.cell_count() {
        sum = after_cell(sum, grid.is_floor(cell));
    }
    sum
}
