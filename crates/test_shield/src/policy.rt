//! A policy that wants one cell for each robot, and its shield.

ghost use Rattle.std.specs.Prelude.{◌≡◌, true, false};
ghost use Rattle.fleet_grid.specs.Step.{IsConflictFree};

use fleet_grid::Grid;
use fleet_shield::{Preferences, Shield};

/// Lets robots go where a policy wants them, one cell for each, as far as no conflict comes of it. Where the policy wants
/// what no robot can do in one step, no robot is moved, and the result is `false`.
pub fn shielded(
    shield: &mut Shield,
    grid: &Grid,
    from: &[u32],
    order: &[u32],
    wanted: &[u32],
    to: &mut [u32],
) -> bool
    ensures safe { result ≡ true → IsConflictFree grid.now from.now to.new }
    ensures unmoved { result ≡ false → to.new ≡ to.old }
{
    let wishes = Preferences {
        each: 1,
        cells: wanted,
    };
    match shield.step(grid, from, order, &wishes, to) {
        Ok(()) => true,
        Err(_refusal) => false,
    }
}
