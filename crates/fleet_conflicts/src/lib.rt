//! All conflicts of a plan.
#![tactic(auto)]

mod conflicts;
mod robot;
mod seats;
mod step;

pub use conflicts::{Conflict, conflicts_of};
