//! The cells of a map that are not roomy for a fleet, and dead ends that are full of robots.
#![tactic(auto)]

mod blocked;
mod full;
mod unroomy;

pub use blocked::blocked_at;
pub use full::is_full_beyond;
pub use unroomy::{UnroomyCells, unroomy_by, unroomy_cells};
