//! A world that goes on from a chapter that was kept: the chapter is judged, and the world whose next chapter it begins
//! is opened.
#![tactic(auto)]

mod bound;
mod fault;
mod law;
mod reach;
mod reopening;
mod within;

pub use fault::ReopenFault;
pub use law::{chapters_are_one_run, reopened_is_next};
pub use reopening::{reopen, reopen_world};
