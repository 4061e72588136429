//! Orders, verdicts, notices and events, and the book, which judges orders by its counts.
#![tactic(auto)]

mod account;
mod book;
mod event;
mod facts;
mod limit;
mod limits;
mod notice;
mod order;
mod verdict;

pub use account::Account;
pub use book::Book;
pub use event::Event;
pub use facts::{Facts, Place};
pub use limit::Limit;
pub use limits::Limits;
pub use notice::Notice;
pub use order::Order;
pub use verdict::Verdict;
