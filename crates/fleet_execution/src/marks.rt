//! Cells that are marked with the robots that come to them.

ghost use Rattle.std.specs.Prelude.{◌≡◌, ◌+◌, ◌<◌, ◌≤◌, ℕ, true, false, length};
ghost use Rattle.fleet_execution.specs.Checked.{AreMarked, IsOff};

use crate::table::Table;
use std::alloc::Allocator;

/// Marks a robot's cell, if those of the robots before it are marked; `false` if it is not on the map or is one of those.
fn mark<A: Allocator>(marks: &mut Table<u32, A>, to: &[u32], robot: u32) -> bool
    requires inside { robot < length to.now }
    requires marked { AreMarked to.now marks.old robot }
    ensures size { length marks.new ≡ length marks.old }
    ensures marked { result ≡ true → AreMarked to.now marks.new (robot + 1) }
    ensures off { result ≡ false → IsOff to.now (length marks.old) robot }
{
    let cell = to[robot as usize] as usize;
    if cell >= marks.len() {
        return false;
    }
    let before = marks.get(cell);
    if before < robot && to[before as usize] as usize == cell {
        return false;
    }
    marks.set(cell, robot);
    true
}

/// Marks the cells of the first robots, each with its robot; `false` if a cell is not on the map or is that of an earlier
/// robot. What was marked before does not matter.
pub(crate) fn mark_all<A: Allocator>(marks: &mut Table<u32, A>, to: &[u32], robots: u32) -> bool
    requires { robots ≤ length to.now }
    ensures size { length marks.new ≡ length marks.old }
    ensures marked { result ≡ true → AreMarked to.now marks.new robots }
    ensures off { result ≡ false → (r : ℕ) × (r < robots) × IsOff to.now (length marks.old) r }
{
    for robot in 0..robots {
        if !mark(marks, to, robot) {
            return false;
        }
    }
    true
}
