//! The state after a history: where the robots stand, their errands and waits, and what is known of the clients.
#![tactic(auto)]

mod clients;
mod due;
mod enter;
mod landing;
mod opening;
mod queues;
mod robots;
mod state;
mod verdict;

pub use clients::Tally;
pub use due::Landings;
pub use state::FleetState;
