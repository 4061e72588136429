//! What the word `execute` of the program `fleet` says: a plan of any planner, executed by robots that report.
#![tactic(auto)]

mod chunks;
mod fault;
mod going;
mod heard;
mod holding;
mod line;
mod placed;
mod plan;
mod print;

pub use fault::{HoldFault, TurnFault};
pub use going::{is_done, turn};
pub use heard::{Heard, hear};
pub use holding::hold;
pub use placed::{ExecuteRules, execute};
pub use plan::Plan;
