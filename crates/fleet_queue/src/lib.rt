//! The errands that wait for one robot: a bounded list, whose memory is taken once.
#![tactic(auto)]

mod errand;
mod queue;

pub use errand::Errand;
pub use queue::ErrandQueue;
