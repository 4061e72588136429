//! The way to the core of a part.

ghost use Rattle.std.specs.Prelude.{◌≡◌, ℕ, Some, slice_index};
ghost use Rattle.fleet_turns.specs.inside.Cores.{way_to_core};

use fleet_grid::Grid;
use fleet_pibt::Goals;

/// The goal of a robot that goes to a core. The lists are by cells.
#[derive(Clone, Copy)]
pub(crate) struct ToCore<'a> {
    pub(crate) core: &'a [u32],
    pub(crate) away: &'a [u32],
    pub(crate) goal: u32,
}

/// The number at a place, or 0 past the end.
pub(crate) fn read(list: &[u32], at: u32) -> u32
    ensures { result ≡ slice_index list.now at }
{
    if (at as usize) < list.len() {
        list[at as usize]
    } else {
        0
    }
}

impl<'a> Goals for ToCore<'a> {
    ghost goal_of = { λ s _. Some s.goal };

    ghost distance = { λ s _ c. way_to_core s.core.now s.away.now s.goal c };

    fn goal(&self, _robot: u32) -> Option<u32> {
        Some(self.goal)
    }

    fn at(&self, _robot: u32, cell: u32) -> Option<u32> {
        if read(self.core, cell) != self.goal {
            return None;
        }
        Some(read(self.away, cell))
    }
}
