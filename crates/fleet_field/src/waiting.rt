//! Cells that wait for the next round.

ghost use Rattle.std.specs.Prelude.{◌≡◌, ℕ, ◌+◌, ◌<◌, ◌≤◌, length, slice_index, vec_len, vec_capacity, OnOk};
ghost use Rattle.std.specs.List.{Contains};
ghost use Rattle.fleet_grid.specs.Floor.{Floor};
ghost use Rattle.fleet_field.specs.Growing.{Serves};

use crate::growing::GrowingField;
use std::alloc::{AllocError, Allocator};

/// Drops the cells that have labels.
fn drop_come<A: Allocator + Copy>(cells: &mut Vec<u32, A>, labels: &[u8])
    requires inside { (v : ℕ) → Contains cells.old.items v → v < length labels.now }
    ensures kept { (v : ℕ) → Contains cells.old.items v → slice_index labels.now v ≡ 0 → Contains cells.new.items v }
    ensures only { (v : ℕ) → Contains cells.new.items v → Contains cells.old.items v }
    ensures fewer { length cells.new.items ≤ length cells.old.items }
{
    let mut at = 0;
    while at < cells.len() {
        if labels[cells[at] as usize] == 0 {
            at += 1;
        } else {
            cells.swap_remove(at);
        }
    }
}

impl<A: Allocator + Copy> GrowingField<A> {
    /// Makes room for four more cells that wait for the next round. Before their list grows, those are dropped to which
    /// the search has come since: most of them on an open floor.
    pub(crate) fn make_room(&mut self) -> Result<(), AllocError>
        requires inside { (m : Floor) × Serves m self.old }
        ensures serves { (m : Floor) → Serves m self.old → Serves m self.new }
        ensures goal { self.new.goal ≡ self.old.goal }
        ensures labels { self.new.labels ≡ self.old.labels }
        ensures now { self.new.now ≡ self.old.now }
        ensures next { self.new.next ≡ self.old.next }
        ensures room { OnOk result (vec_len self.new.later + 4 ≤ vec_capacity self.new.later) }
        ensures fewer { length self.new.later.items ≤ length self.old.later.items }
    {
        if self.later.capacity() - self.later.len() >= 4 {
            return Ok(());
        }
        drop_come(&mut self.later, &self.labels);
        // So that half of the list is free, and this does not happen often.
        self.later.reserve(self.later.len() + 4)
    }
}
