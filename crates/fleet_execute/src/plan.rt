//! A plan as a list of cells.

ghost use Rattle.std.specs.Prelude.{◌≤◌, ◌<◌, length};

/// The placements of a plan by time, one after the other; each has a cell for each robot, by number.
#[derive(Drop)]
pub struct Plan {
    /// The number of robots.
    pub robots: u32,
    pub cells: Vec<u32>,
    /// There is a robot.
    pub ghost some: { 0 < robots },
    /// There is a placement.
    pub ghost whole: { robots ≤ length cells.items },
}
