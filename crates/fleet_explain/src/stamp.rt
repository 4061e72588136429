//! The stamp of an entry that is outside of its robot's law.

ghost use Rattle.std.specs.Prelude.{◌≡◌, map};
ghost use Rattle.fleet_history.specs.History.{history_of};
ghost use Rattle.fleet_trace.specs.Judged.{IsFirstIllegal};
ghost use Rattle.fleet_explain.specs.Stamps.{is_outside, first_outside, arrival_stamp, farewell_stamp, stamps_of};
ghost use Rattle.fleet_explain.specs.Details.{stamp_detail, IsDetail};

use crate::detail::Detail;
use fleet_grid::Grid;
use fleet_history::{Arrival, Bye, Chapter, Entry, RobotState};

/// A stamp, with its robot and the stamps that the robot's law allows: those from `low` to `high`.
#[derive(Clone, Copy, Debug, PartialEq, Eq)]
pub struct RobotStamp {
    pub robot: u32,
    pub stamp: u32,
    pub low: u32,
    pub high: u32,
}

/// Whether the law does not allow the stamp.
fn is_outside(stamp: RobotStamp) -> bool
    ensures { result ≡ is_outside stamp }
{
    stamp.stamp < stamp.low || stamp.high < stamp.stamp
}

/// The stamp of a robot's arrival. A robot that there is not has the law of 0 alone.
fn arrival_stamp(robots: &[RobotState], robot: u32, stamp: u32) -> RobotStamp
    ensures { result ≡ arrival_stamp robots.now robot stamp }
{
    let r = robot as usize;
    let (low, high) = if r < robots.len() {
        (robots[r].arrival_law.low, robots[r].arrival_law.high)
    } else {
        (0, 0)
    };
    RobotStamp {
        robot,
        stamp,
        low,
        high,
    }
}

/// The stamp of a robot's farewell. A robot that there is not has the law of 0 alone.
fn farewell_stamp(robots: &[RobotState], robot: u32, stamp: u32) -> RobotStamp
    ensures { result ≡ farewell_stamp robots.now robot stamp }
{
    let r = robot as usize;
    let (low, high) = if r < robots.len() {
        (robots[r].farewell_law.low, robots[r].farewell_law.high)
    } else {
        (0, 0)
    };
    RobotStamp {
        robot,
        stamp,
        low,
        high,
    }
}

/// The first stamp of these arrivals that is outside of its law.
fn first_of_arrivals(robots: &[RobotState], arrived: &[Arrival]) -> Option<RobotStamp>
    ensures { result ≡ first_outside (map (λ a. arrival_stamp robots.now a.robot a.stamp) arrived.now) }
{
    for arrival in arrived {
        let stamp = arrival_stamp(robots, arrival.robot, arrival.stamp);
        if is_outside(stamp) {
            return Some(stamp);
        }
    }
    None
}

/// The first stamp of these farewells that is outside of its law.
fn first_of_farewells(robots: &[RobotState], farewells: &[Bye]) -> Option<RobotStamp>
    ensures { result ≡ first_outside (map (λ b. farewell_stamp robots.now b.robot b.stamp) farewells.now) }
{
    for bye in farewells {
        let stamp = farewell_stamp(robots, bye.robot, bye.stamp);
        if is_outside(stamp) {
            return Some(stamp);
        }
    }
    None
}

/// The first stamp of an entry that is outside of its law, those of arrivals before those of farewells.
fn first_outside(robots: &[RobotState], entry: &Entry) -> Option<RobotStamp>
    ensures { result ≡ first_outside (stamps_of robots.now entry.now) }
{
    match entry {
        Entry::Take { .. } => None,
        Entry::Tick {
            arrived,
            farewells,
            ..
        } => match first_of_arrivals(robots, arrived.as_slice()) {
            Some(stamp) => Some(stamp),
            None => first_of_farewells(robots, farewells.as_slice()),
        },
        Entry::Shut { farewell: None, .. } => None,
        Entry::Shut {
            robot,
            farewell: Some(stamp),
        } => {
            let stamp = farewell_stamp(robots, *robot, *stamp);
            if is_outside(stamp) { Some(stamp) } else { None }
        }
    }
}

/// What is said of a stamp, if there is one.
fn detail_of(stamp: Option<RobotStamp>) -> Detail
    ensures { result ≡ stamp_detail stamp }
{
    match stamp {
        Some(stamp) => Detail::Stamp(stamp),
        None => Detail::Nothing,
    }
}

/// The stamp that is outside of its law in the entry that breaks the seventh rule.
pub(crate) fn stamp_at(grid: &Grid, chapter: &Chapter, at: u64) -> Detail
    requires { IsFirstIllegal grid.now (history_of chapter.now) at 7 }
    ensures { IsDetail grid.now (history_of chapter.now) at 7 result }
{
    let entry = &chapter.entries[at as usize - 1];
    detail_of(first_outside(chapter.opening.robots.as_slice(), entry))
}
