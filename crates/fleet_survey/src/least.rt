//! For how many robots all cells of a list are roomy.

ghost use Rattle.std.specs.Prelude.{◌≡◌, ◌⊎◌, ◌≤◌};
ghost use Rattle.std.specs.List.{All};
ghost use Rattle.fleet_grid.specs.Floor.{Floor, IsFloor};
ghost use Rattle.fleet_bridge.specs.Roominess.{AreRoomyFor};
ghost use Rattle.fleet_survey.specs.Survey.{IsGreatestFor};

use fleet_grid::Grid;

/// The lesser of two numbers.
pub(crate) fn lesser(a: u32, b: u32) -> u32
    ensures first { result ≤ a }
    ensures second { result ≤ b }
    ensures either { (result ≡ a) ⊎ (result ≡ b) }
{
    if a < b { a } else { b }
}

/// The greatest number of robots for which all cells of a list are roomy, by the numbers of `fleet_bridge::roominess`;
/// `u32::MAX` if they are roomy for every number.
pub fn roomy_for(grid: &Grid, most: &[u32], cells: &[u32]) -> u32
    requires numbers { AreRoomyFor grid.now most.now }
    requires floor { All (IsFloor grid.now) cells.now }
    ensures { IsGreatestFor grid.now cells.now result }
{
    let mut least = u32::MAX;
    for place in 0..cells.len() {
        least = lesser(least, most[cells[place] as usize]);
    }
    least
}
