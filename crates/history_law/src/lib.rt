//! What holds of each legal history, on whatever road it came: for readers, and for the crates above.
#![tactic(auto)]

pub mod law;
