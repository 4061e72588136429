//! The goals of robots that each have one of several fields.

ghost use Rattle.std.specs.Prelude.{◌≡◌};
ghost use Rattle.std.specs.Option.{option_map};
ghost use Rattle.bench.specs.Fleet.{field_of, goal_of, distance_of, AreFields};

use fleet_field::Compass;
use fleet_grid::{Grid, Outlook, Ways};
use fleet_pibt::Guide;
use std::alloc::Allocator;
use std::convert::Infallible;

/// Robots and their fields.
#[derive(Drop)]
pub(crate) struct Course<'a> {
    /// All fields.
    pub(crate) fields: &'a [Compass],
    /// The number of each robot's field.
    pub(crate) aims: &'a [usize],
}

impl<'a> Course<'a> {
    /// The field of the robot.
    fn field(&self, robot: u32) -> Option<&Compass>
        ensures { option_map (λ field. field.now) result ≡ field_of self.now.fields.now self.now.aims.now robot }
    {
        let aim = self.aims.get(robot as usize)?;
        self.fields.get(*aim)
    }
}

impl<'a> Guide for Course<'a> {
    type Fault = Infallible;

    ghost goal_of = { λ s robot. goal_of s.fields.now s.aims.now robot };

    ghost distance = { λ s _ robot cell. distance_of s.fields.now s.aims.now robot cell };

    ghost shows = { λ s m. AreFields m s.fields.now };

    ghost stays = { λ _ _. Unit {0} };

    ghost stays_same = { λ _. tt };

    ghost stays_on = { λ _ _ _ _ _. tt };

    fn outlook<A: Allocator + Copy>(
        &mut self,
        grid: &Grid<A>,
        robot: u32,
        cell: u32,
    ) -> Result<Outlook, Infallible> {
        Ok(match self.field(robot) {
            Some(field) => field.outlook(grid, cell),
            None => Outlook {
                nearer: Ways::NONE,
                exits: grid.exits(cell),
            },
        })
    }
}
