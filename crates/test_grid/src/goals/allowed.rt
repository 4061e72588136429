//! Whether changes of goals may be made, for tests that make several.

ghost use Rattle.std.specs.Bool.{OnTrue};
ghost use Rattle.fleet_planner.specs.Turned.{AreFloorTurns, AreKnownTurns};

use fleet_grid::Grid;
use fleet_planner::GoalChange;

/// Whether each change is for one of these robots, and leads to a floor cell or takes the goal away.
pub fn are_allowed(grid: &Grid, robots: usize, turns: &[GoalChange]) -> bool
    ensures known { OnTrue result (AreKnownTurns robots turns.now) }
    ensures floor { OnTrue result (AreFloorTurns grid.now turns.now) }
{
    for turn in turns {
        if turn.robot as usize >= robots {
            return false;
        }
        if let Some(goal) = turn.goal {
            if !grid.is_floor(goal) {
                return false;
            }
        }
    }
    true
}
