//! The two rings of a client: its lane carries orders to the hall, and its outlet carries notices back.
//!
//! A `Client` has the sending end of the lane and the receiving end of the outlet, a `HallEnd` the other two. Each
//! may move to a thread of its own. No call but `lane_pair` takes memory, and none waits.
#![tactic(auto)]

mod client;
mod fault;
mod hall_end;
mod pair;

pub use client::Client;
pub use fault::PostFault;
pub use hall_end::HallEnd;
pub use pair::lane_pair;
