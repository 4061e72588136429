//! What robots prefer.

ghost use Rattle.std.specs.Prelude.{◌≡◌, ◌+◌, ◌*◌, ◌<◌, length, slice_index};

/// The cells that robots prefer, the same number for each robot: the list of robot 0, its best cell first, then that of
/// robot 1, and so on. A cell may stand in a list twice, so a shorter list is made longer by the robot's own cell, which
/// each robot tries last anyway.
#[derive(Clone, Copy)]
pub struct Preferences<'a> {
    /// How many cells each robot names; 5 are all that it can go to.
    pub each: u16,
    pub cells: &'a [u32],
}

impl<'a> Preferences<'a> {
    /// A robot's preference at a place of its list.
    pub(crate) fn get(&self, robot: u32, place: u32) -> u32
        requires { robot * self.now.each + place < length self.now.cells.now }
        ensures { result ≡ slice_index self.now.cells.now (robot * self.now.each + place) }
    {
        self.cells[robot as usize * usize::from(self.each) + place as usize]
    }
}
