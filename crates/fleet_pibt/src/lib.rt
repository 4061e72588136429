//! The order of priority among robots, and one step of all of them by priority inheritance with backtracking (PIBT,
//! Okumura et al., AIJ 2022).
#![tactic(auto)]

mod around;
mod board;
mod choice;
mod door;
mod goals;
pub mod law;
mod on_map;
mod plan;
mod priority;
mod scene;
mod seats;
mod sight;
mod stepper;
mod table;
mod tables;

pub use door::Door;
pub use goals::{Goals, Guide};
pub use priority::{comes_before, order};
pub use stepper::Stepper;
