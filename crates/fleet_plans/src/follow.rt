//! Robots that follow paths of cells, placement by placement.

ghost use Rattle.std.specs.Prelude.{◌≡◌, ◌≤◌, ◌<◌, ◌^◌, ℕ, [], length, slice_index_or, replicate, IfOk};
ghost use Rattle.fleet_plans.specs.Paths.{path_at, ArePlaced, AreFollowed};
ghost use Rattle.fleet_plans.specs.Judge.{HasJudged};
ghost use Rattle.fleet_plans.specs.inside.Walk.{IsLongest};
ghost use Rattle.fleet_plans.specs.inside.Follow.{AreTaken};
ghost use Rattle.fleet_plans.specs.inside.Given.{IsGiven};

use crate::costs::zeros;
use crate::judge::PlanJudge;
use fleet_history::Row;
use std::alloc::{AllocError, Allocator, Global};

/// The cell of a path at a time; after its end, its last cell.
fn path_at(path: &[u32], time: usize) -> u32
    ensures { result ≡ path_at path.now time }
{
    match path.get(time.min(path.len().saturating_sub(1))) {
        Some(cell) => *cell,
        None => 0,
    }
}

/// The robot's cell at a time.
fn cell_of(paths: &[Row<u32>], robot: usize, time: usize) -> u32
    ensures { result ≡ path_at (slice_index_or paths.now robot []) time }
{
    match paths.get(robot) {
        Some(path) => path_at(path.as_slice(), time),
        None => 0,
    }
}

/// Places all robots where their paths have them at a time.
fn place_all(paths: &[Row<u32>], time: usize, place: &mut [u32])
    requires { length place.old ≡ length paths.now }
    ensures { ArePlaced paths.now time place.new }
{
    for robot in 0..place.len() {
        place[robot] = cell_of(paths, robot, time);
    }
}

/// The length of the robot's path.
fn length_of(paths: &[Row<u32>], robot: usize) -> usize
    ensures { result ≡ length (slice_index_or paths.now robot []) }
{
    match paths.get(robot) {
        Some(path) => path.len(),
        None => 0,
    }
}

/// The length of the longest path.
fn longest(paths: &[Row<u32>]) -> usize
    ensures { IsLongest paths.now (length paths.now) result }
{
    let mut most = 0;
    for robot in 0..paths.len() {
        let len = length_of(paths, robot);
        if len > most {
            most = len;
        }
    }
    most
}

/// Gives the judge the placements of the first `times` times. After the first fault robots are placed only if the judge
/// keeps placements.
fn take_times<B: Allocator + Copy>(
    paths: &[Row<u32>],
    times: usize,
    place: &mut [u32],
    judge: &mut PlanJudge<Global, B>,
) -> Result<(), AllocError>
    requires short { times < 2 ^ 32 }
    requires robots { length paths.now < 2 ^ 32 }
    requires each_one { length place.old ≡ length paths.now }
    requires fresh { HasJudged judge.old.floor [] judge.old }
    ensures { IfOk result (λ _. AreTaken judge.old.floor paths.now times judge.new) }
{
    for time in 0..times {
        if judge.is_over() {
            judge.pass_over(times - time);
            return Ok(());
        }
        place_all(paths, time, place);
        judge.take(place)?;
    }
    Ok(())
}

/// Gives the judge the placements of robots that follow these paths, up to the end of the longest. A robot whose path
/// has ended stays where it is.
pub(crate) fn follow<B: Allocator + Copy>(
    alloc: Global,
    paths: &[Row<u32>],
    judge: &mut PlanJudge<Global, B>,
) -> Result<(), AllocError>
    requires robots { length paths.now < 2 ^ 32 }
    requires short { (r : ℕ) → length (slice_index_or paths.now r []) < 2 ^ 32 }
    requires fresh { HasJudged judge.old.floor [] judge.old }
    ensures { IfOk result (λ _. IsGiven judge.old.floor (AreFollowed paths.now) judge.new) }
{
    let times = longest(paths).max(1);
    let mut place = zeros(alloc, paths.len())?;
    take_times(paths, times, place.as_mut_slice(), judge)
}
