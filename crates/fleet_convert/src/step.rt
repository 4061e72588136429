//! The steps of a robot.

ghost use Rattle.std.specs.Prelude.{◌≡◌, ◌∷◌, [], ◌<◌, ◌+◌, slice_index};
ghost use Rattle.fleet_plans.specs.Valid.{place_at};
ghost use Rattle.fleet_convert.specs.Moves.{step_between, letter};
ghost use Rattle.fleet_convert.specs.Runners.{capital};

use fleet_plans::Placements;

/// A step of a robot. `Up` leads to the row above.
#[derive(Clone, Copy, Debug, PartialEq, Eq)]
pub(crate) enum Step {
    Up,
    Down,
    Left,
    Right,
    Wait,
}

impl Step {
    /// Its letter in plans of the MAPF benchmarks.
    pub(crate) fn letter(self) -> &'static str
        ensures { result.now ≡ letter self ∷ [] }
    {
        match self {
            Step::Up => "u",
            Step::Down => "d",
            Step::Left => "l",
            Step::Right => "r",
            Step::Wait => "w",
        }
    }

    /// Its letter in plans of the League of Robot Runners.
    pub(crate) fn capital(self) -> &'static str
        ensures { result.now ≡ capital self }
    {
        match self {
            Step::Up => "U",
            Step::Down => "D",
            Step::Left => "L",
            Step::Right => "R",
            Step::Wait => "W",
        }
    }
}

/// The step from one cell to another, on a map of this width.
fn step_between(width: u32, from: u32, to: u32) -> Step
    ensures { result ≡ step_between width from to }
{
    let (width, from, to) = (u64::from(width), u64::from(from), u64::from(to));
    if to == from {
        Step::Wait
    } else if to + width == from {
        Step::Up
    } else if from + width == to {
        Step::Down
    } else if to + 1 == from {
        Step::Left
    } else {
        Step::Right
    }
}

/// The robot's cell in a placement; 0 if it has none.
pub(crate) fn cell_of(place: &[u32], robot: usize) -> u32
    ensures { result ≡ slice_index place.now robot }
{
    if robot < place.len() { place[robot] } else { 0 }
}

/// The robot's step from one time to the next.
pub(crate) fn step_at(width: u32, places: &Placements, robot: usize, time: usize) -> Step
    requires { time < 18446744073709551615 }
    ensures { result ≡ step_between width (slice_index (place_at places.now time) robot) (slice_index (place_at places.now (time + 1)) robot) }
{
    let from = cell_of(places.at(time), robot);
    let to = cell_of(places.at(time + 1), robot);
    step_between(width, from, to)
}
