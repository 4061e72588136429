//! The reply to an event of a run.

use fleet_book::{Notice, Verdict};
use fleet_core::{ShutFault, TakeFault, TickFault, TickReport};

/// What was done at an event. A refused event changes nothing.
#[derive(Clone, Copy, Debug, PartialEq, Eq)]
pub enum Reply {
    /// The order's number among the client's, from 1.
    Posted(u64),
    LaneFull,
    /// The order's number among the client's, and its verdict.
    Took { order_no: u64, verdict: Verdict },
    LaneEmpty,
    TakeRefused(TakeFault),
    Ticked(TickReport),
    TickRefused(TickFault),
    /// The notice's number among the client's.
    Gave(u64),
    NothingPending,
    OutletFull,
    Collected(Notice),
    NothingThere,
    /// The stamp of the farewell, if the robot said farewell.
    ShutDone(Option<u32>),
    ShutRefused(ShutFault),
    /// There is no such client.
    NoClient,
}
