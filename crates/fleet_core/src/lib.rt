//! The world of a fleet, call by call: one history of takes, ticks and shuts, with the robots' closures (`World`). A
//! `Core` is a world without its closures: map, limits, history and mailboxes.
#![tactic(auto)]

mod ahead;
mod chapters;
mod entries;
mod faults;
mod gifts;
mod hook_laws;
mod kernel;
mod least_stamps;
mod longest;
mod mailbox;
mod open_errands;
mod opening;
mod queues;
mod resuming;
mod robot_hooks;
mod roomy;
mod stamps;
mod tick_draft;
mod turning;
mod under_way;
mod waits;
mod world;
mod world_opening;

pub use crate::faults::{ChapterFault, OpenFault, ShutFault, TakeFault, TickFault, TickReport};
pub use crate::hook_laws::HookLaws;
pub use crate::kernel::Core;
pub use crate::open_errands::OpenErrand;
pub use crate::queues::QueueReport;
pub use crate::robot_hooks::RobotHooks;
pub use crate::world::World;
pub use crate::world_opening::start_fault;
pub use fleet_book::{Limits, Notice, Order, Verdict};
pub use fleet_history::{Arrival, Bye, Chapter, ClientState, Entry, Opening, RobotState, Row};
pub use fleet_hooks::{Hooks, StampLaw};
pub use fleet_queue::Errand;
pub use mover::NoTurns;
