//! Tests of the crates in which robots take turns in rooms.
#![tactic(auto)]

#[cfg(test)]
mod aisles;
#[cfg(test)]
mod laws;
#[cfg(test)]
mod plans;
