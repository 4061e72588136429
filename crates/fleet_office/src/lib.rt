//! The office: a world, the hall's ends of its clients' rings and the ledger of its ticks, under one lock.
#![tactic(auto)]

mod ahead;
mod beside;
mod chapters;
mod conclude;
mod desk;
mod emptying;
mod giving;
mod guest;
mod hall;
mod hall_state;
mod homing;
mod leftovers;
mod look;
mod names;
mod office;
mod report;
mod settle;
mod taking;
mod tick_record;
mod ticker;
mod waits;

pub use crate::beside::side_by_side;
pub use crate::conclude::{ConcludeFault, Final, Home};
pub use crate::desk::Desk;
pub use crate::guest::{Guest, clients_of, guests_of};
pub use crate::hall::{Hall, HallOf};
pub use crate::hall_state::HallState;
pub use crate::look::Look;
pub use crate::names::OfficeName;
pub use crate::office::{Office, OfficeOf};
pub use crate::report::{TurnCause, TurnFault, TurnReport};
pub use crate::tick_record::TickRecord;
pub use crate::ticker::Ticker;
pub use crate::waits::WaitReport;
