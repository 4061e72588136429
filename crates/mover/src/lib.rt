//! Plans the ticks of a fleet in a manner that is chosen where the fleet is opened: plainly, or in turns, so that errands to the ends of
//! blind aisles arrive too.
#![tactic(auto)]

mod manner;
mod mover;
mod turn_fleet;

pub use fleet_turns::NoTurns;
pub use manner::Manner;
pub use mover::Mover;
