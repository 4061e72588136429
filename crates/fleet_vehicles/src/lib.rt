//! What the word `vehicles` of the program `fleet` says: between a fleet in real time and vehicles that are not in step.
#![tactic(auto)]

mod driver;
mod finding;
mod holding;
mod line;
mod look;
mod numbers;

pub use driver::{DriveRules, Driver};
pub use holding::{DriveFault, drive};
pub use live_vehicles::Clearance;
