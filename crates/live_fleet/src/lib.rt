//! A fleet of many conversations as a value: what it does at each cue, which is a line of a conversation, a turn, or
//! what its caller learned of readers and files, and what it says of that. No thread, no clock and no file is here.
#![tactic(auto)]

mod answering;
mod asking;
mod cue;
mod ending;
mod hearing;
mod hello;
mod law;
mod length;
mod line;
mod listing;
mod notes;
mod numbered;
mod onward;
mod open_fleet;
mod outboxes;
mod party;
mod posting;
mod rest;
mod resting;
mod robots;
mod roll;
mod sessions;
mod speaker;
mod stepping;
mod taking;
mod telling;
mod turning;

pub use cue::Cue;
pub use law::{
    ends_are_told_last, first_notices_are_in_time, histories_are_safe,
    histories_follow_one_another, lists_are_told_whole, notices_are_counted, notices_are_kept,
    notices_are_told_once, notices_are_told_to_their_own, turns_are_shown_last,
    whatever_it_hears_is_a_run,
};
pub use notes::Note;
pub use open_fleet::OpenFleet;
pub use outboxes::{MOST_TEXT, Outboxes};
pub use party::Party;
pub use rest::{Listing, Rest, Rows};
pub use robots::{Duty, RobotRow};
pub use speaker::{Clients, Speaker};
