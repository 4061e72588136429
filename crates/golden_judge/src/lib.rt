//! Another judge of chapters: a reading of the rules of its own, which shares no code with fleet_trace's judge nor with
//! what judges orders.
//!
//! It is for programs that compare both judges. Its calls are safe and end. No clause says what they return: a clause
//! would use the definitions in the contract of fleet_trace's judge.
#![tactic(auto)]

mod fleet;
mod later;
mod opening;
mod rules;
mod site;
mod take;

pub use later::later_chapter;
pub use rules::first_fault;
pub use site::Site;
