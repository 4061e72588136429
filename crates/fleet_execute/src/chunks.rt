//! The placements of a plan in its list of cells.

ghost use Rattle.std.specs.Prelude.{◌≡◌, ◌≤◌, ◌<◌, length};
ghost use Rattle.fleet_execute.specs.Goes.{cells_at, steps_in};

/// How many steps this number of cells is, for this number of robots.
pub(crate) fn steps_in(robots: u32, cells: &[u32]) -> u64
    requires some { 0 < robots }
    requires whole { robots ≤ length cells.now }
    ensures { result ≡ steps_in robots cells.now }
{
    (cells.len() / robots as usize) as u64 - 1
}

/// The robots' cells after this number of steps.
pub(crate) fn cells_at(robots: u32, cells: &[u32], time: u64) -> &[u32]
    requires some { 0 < robots }
    requires whole { robots ≤ length cells.now }
    requires inside { time ≤ steps_in robots cells.now }
    ensures { result.now ≡ cells_at robots cells.now time }
{
    let start = time as usize * robots as usize;
    &cells[start..start + robots as usize]
}
