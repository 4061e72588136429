//! Plans the ticks of a fleet: each robot's goal with its distances, the eldest robot, and the step of the next tick.
//! Robots with the same goal share its distances.
#![tactic(auto)]

mod ahead;
mod aims;
mod courses;
mod keys;
mod lending;
mod missing;
mod mover;
mod planner;
mod recent;
mod searching;
mod started;
mod turns;
mod waits;

pub use aims::Aims;
pub use courses::Courses;
pub use lending::{Lending, RoomLists, lend};
pub use planner::{KEPT_BYTES, Planner, first_goal, has_no_bridge, put_turns};
pub use turns::GoalChange;
pub use waits::{eldest, is_nobody};
