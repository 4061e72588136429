//! Journals: a chapter as lines, which are written while it goes on, so that what was written whole before a kill can
//! be read after it.
#![tactic(auto)]

mod fault;
mod law;
mod lines;
mod read;
mod told;
mod write;

pub use fault::JournalFault;
pub use law::journals_may_be_cut;
pub use read::{Journal, read_journal};
pub use write::{push_entries, push_head};
