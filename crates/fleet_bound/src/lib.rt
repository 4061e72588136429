//! The bound on waits: on a map without bridges every wait is less than the number of robots times the greatest
//! distance between two cells (at least 1).
#![tactic(auto)]

mod idle;
pub mod law;
pub mod waiting;

pub use idle::{idle_ticks, idle_within, longest_queue};
