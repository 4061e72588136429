//! A world with the lanes and outlets of its clients, on which events are done one by one (`Session`), and the run of a
//! list of events (`run`), or of a script's event lines (`run_lines`), from the opening of a world.
#![tactic(auto)]

mod answered;
mod faults;
mod leftovers;
mod lines;
mod play;
mod reply;
mod session;
mod steps;
mod waiting;

pub use crate::answered::Answered;
pub use crate::faults::RunFault;
pub use crate::lines::{PlayedLines, run_lines};
pub use crate::play::{Played, run};
pub use crate::reply::Reply;
pub use crate::session::Session;
pub use crate::waiting::Waiting;
pub use fleet_book::{Event, Limits, Notice, Order, Verdict};
pub use fleet_core::{
    ChapterFault, Core, NoTurns, OpenFault, RobotHooks, ShutFault, TakeFault, TickFault,
    TickReport, World,
};
pub use fleet_history::{Arrival, Bye, Chapter, ClientState, Entry, Opening, RobotState, Row};
pub use fleet_hooks::{Hooks, StampLaw};
pub use fleet_queue::Errand;
