//! The bound on waits of robots that take turns in rooms, as laws over fleets from tick to tick. Where the robots get their goals from
//! is left open.
#![tactic(auto)]

mod law;

pub use law::{errands_arrive, turns_come_nearer, turns_keep_bound, waits_are_bounded};
