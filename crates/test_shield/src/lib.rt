//! Tests of steps from preferences.
#![tactic(auto)]

#[cfg(test)]
mod asked;
#[cfg(test)]
mod cases;
#[cfg(test)]
mod many;
#[cfg(test)]
mod model;
mod policy;
#[cfg(test)]
mod refusals;
#[cfg(test)]
mod steps;

pub use policy::shielded;
