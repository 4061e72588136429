//! A fleet in real time, or on demand: one loop over one fleet. Readers split lines, writers write, one more thread
//! keeps chapters, and rings lead from and to them.
#![tactic(auto)]

mod archiving;
mod batch;
mod conversations;
mod counts;
mod desk;
mod ended;
mod ends;
mod events;
mod handing;
mod keeping;
mod leaving;
mod lines_in;
mod link;
mod listeners;
mod live;
mod logging;
mod manner;
mod opening;
mod pace;
mod place;
mod reading;
mod report_out;
mod reports;
mod resuming;
mod serving;
mod shelf;
mod source;
mod text_out;
mod timing;
mod turns;
mod wake;
mod writing;

pub use live::keep_live;
pub use live_parts::{
    Given, Journal, Journaled, LiveEnds, LiveSettings, Pipes, Recalls, read_period,
};
pub use resuming::resume_live;
