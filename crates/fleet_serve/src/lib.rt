//! `serve`: a script's clients and two tickers work at one office, each in a thread of its own.
#![tactic(auto)]

mod draining;
mod gate;
mod lines;
mod names;
mod new_client;
mod served;
mod served_client;
mod serving;
mod shift;
mod threads;

pub use crate::gate::Gate;
pub use crate::lines::{first_other, first_other_line};
pub use crate::names::ScriptName;
pub use crate::new_client::NewClient;
pub use crate::served::{ServeFault, Served};
pub use crate::served_client::ServedClient;
pub use crate::serving::serve;
pub use crate::shift::Shift;
pub use crate::threads::TickerEnd;
