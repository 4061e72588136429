//! The execution of a plan by robots that are not in step: which move may begin, and when.
#![tactic(auto)]

mod execution;
pub mod law;
mod marks;
mod motion;
mod placement;
mod queue;
mod robot;
mod standing;
mod state;
mod table;

pub use execution::Execution;
pub use execution_law::Clearance;
pub use motion::{Move, NotUnderWay};
pub use placement::is_placement;
pub use standing::Standing;
