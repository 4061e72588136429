//! The rule by which robots that are not in step carry out a plan, and its laws.
#![tactic(auto)]

mod clearance;
pub mod law;

pub use clearance::Clearance;
