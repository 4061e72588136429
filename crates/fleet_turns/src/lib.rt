//! Plans the ticks of a fleet whose robots take turns in rooms, so that errands to all cells arrive: one robot is lent the eldest's
//! turn, and one door is shut from one side.
#![tactic(auto)]

mod distances;
mod guide;
mod planner;
mod ready;
mod tables;
mod to_core;

pub use planner::{Fleet, NoTurns, TurnPlanner};
pub use ready::is_ready;
