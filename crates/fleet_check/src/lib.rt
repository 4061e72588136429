//! The check of a step: whether robots that move at the same time keep to the edges of a map and have no conflict.
#![tactic(auto)]

mod check;
mod checker;
mod fault;
mod free;
mod placement;
mod slots;

pub use checker::{StepChecker, check_step};
pub use fault::StepFault;
pub use placement::check_placement;
