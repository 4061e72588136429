//! Robots that carry out a fleet's turns in their own time, as a value: which moves may begin, what vehicles report, and
//! who really stands where an errand was done.
#![tactic(auto)]

mod answering;
mod beginning;
mod heard;
mod opening;
mod place;
mod planning;
mod print;
mod regaining;
mod reporting;
mod rules;
mod sorting;
mod stand;
mod vehicles;

pub use answering::Out;
pub use execution_law::Clearance;
pub use heard::{Heard, said_by};
pub use opening::{Known, open};
pub use place::Place;
pub use print::{tell_asked, tell_bad, tell_off, tell_refused, tell_stand};
pub use regaining::{Before, Regained, regain};
pub use rules::Rules;
pub use stand::{Arrived, Stand};
pub use vehicles::Vehicles;
