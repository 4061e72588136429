//! How the search leaves a cell.

ghost use Rattle.std.specs.Prelude.{◌≡◌, ℕ, ◌+◌, ◌*◌, ◌<◌, ◌≤◌, ◌↔◌, length, vec_len, vec_capacity, IsTrue};
ghost use Rattle.fleet_grid.specs.declared.dir.Dir.{Dir as Way};
ghost use Rattle.fleet_grid.specs.Floor.{cell_across};
ghost use Rattle.fleet_grid.specs.Ways.{IsWay};
ghost use Rattle.fleet_field.specs.Growing.{search_of};
ghost use Rattle.fleet_field.specs.inside.Estimate.{IsToward};
ghost use Rattle.fleet_field.specs.inside.Known.{zero_count};
ghost use Rattle.fleet_field.specs.inside.Left.{IsLeft, IsSpread};

use crate::growing::GrowingField;
use fleet_grid::{Dir, Ways};
use std::alloc::Allocator;

impl<A: Allocator + Copy> GrowingField<A> {
    /// Leaves a cell in a direction: if the cell there is open and the search has not come to it, it comes to it now if
    /// that is toward the target, and lets it wait otherwise.
    #[inline(always)]
    fn leave(&mut self, exits: Ways, cell: u32, dir: Dir, is_toward: bool)
        requires toward { IsTrue is_toward ↔ IsToward self.old.target cell dir }
        requires wide { 0 < self.old.target.width }
        requires slim { self.old.target.width ≤ 1024 }
        requires few { cell < 1048576 }
        requires mark { 0 < self.old.mark }
        requires inside { IsWay exits.byte dir → cell_across self.old.target.width cell dir < length self.old.labels.items }
        requires room_now { vec_len self.old.now < vec_capacity self.old.now }
        requires room_later { vec_len self.old.later < vec_capacity self.old.later }
        ensures left { IsLeft self.old.target exits.byte self.old.mark cell dir (search_of self.old) (search_of self.new) }
        ensures rest { self.new ≡ record self.old { labels = self.new.labels; now = self.new.now; later = self.new.later } }
        ensures len { length self.new.labels.items ≡ length self.old.labels.items }
        ensures seen { vec_len self.new.now + zero_count self.new.labels.items ≡ vec_len self.old.now + zero_count self.old.labels.items }
        ensures fewer { zero_count self.new.labels.items ≤ zero_count self.old.labels.items }
        ensures most_now { vec_len self.new.now ≤ vec_len self.old.now + 1 }
        ensures most_later { vec_len self.new.later ≤ vec_len self.old.later + 1 }
        ensures capacity_now { vec_capacity self.new.now ≡ vec_capacity self.old.now }
        ensures capacity_later { vec_capacity self.new.later ≡ vec_capacity self.old.later }
    {
        if !exits.has(dir) {
            return;
        }
        let next = dir.across(self.target.width, cell);
        if self.labels[next as usize] != 0 {
            return;
        }
        if is_toward {
            self.labels[next as usize] = self.mark;
            self.now.push_reserved(next);
        } else {
            self.later.push_reserved(next);
        }
    }

    /// Leaves a cell in all directions.
    pub(crate) fn spread(&mut self, exits: Ways, cell: u32)
        requires wide { 0 < self.old.target.width }
        requires slim { self.old.target.width ≤ 1024 }
        requires few { cell < 1048576 }
        requires mark { 0 < self.old.mark }
        requires inside { (dir : Way) → IsWay exits.byte dir → cell_across self.old.target.width cell dir < length self.old.labels.items }
        requires room_now { vec_len self.old.now + 4 ≤ vec_capacity self.old.now }
        requires room_later { vec_len self.old.later + 4 ≤ vec_capacity self.old.later }
        ensures spread { IsSpread self.old.target exits.byte self.old.mark cell (search_of self.old) (search_of self.new) }
        ensures goal { self.new.goal ≡ self.old.goal }
        ensures target { self.new.target ≡ self.old.target }
        ensures mark { self.new.mark ≡ self.old.mark }
        ensures next { self.new.next ≡ self.old.next }
        ensures most_later { vec_len self.new.later ≤ vec_len self.old.later + 4 }
        ensures seen { vec_len self.new.now + zero_count self.new.labels.items ≡ vec_len self.old.now + zero_count self.old.labels.items }
        ensures fewer { zero_count self.new.labels.items ≤ zero_count self.old.labels.items }
    {
        // Before anything is written, so that the cell's row and column are worked out once.
        let target = self.target;
        let north = target.is_toward(cell, Dir::North);
        let east = target.is_toward(cell, Dir::East);
        let south = target.is_toward(cell, Dir::South);
        let west = target.is_toward(cell, Dir::West);
        // The cell that is put down last is left first. In this order the search goes first where a robot goes that
        // prefers north to east, east to south and south to west: so it seldom has to go on.
        self.leave(exits, cell, Dir::South, south);
        self.leave(exits, cell, Dir::West, west);
        self.leave(exits, cell, Dir::North, north);
        self.leave(exits, cell, Dir::East, east);
    }
}
