//! A site that changes between two chapters of its fleet: walls, robots and errands.
#![tactic(auto)]

mod after;
mod change;
mod changing;
mod copying;
mod cutting;
mod everyone;
mod making;
mod map;
mod opening;
mod reached;
mod refit;
mod seat;
mod sifting;
mod site;

pub use after::AfterFault;
pub use change::{Change, ChangeFault, Dropped};
pub use refit::{Refit, RefitFault};
pub use seat::{Seat, Standing};
pub use site::Site;
