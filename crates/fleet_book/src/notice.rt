//! What a client is told.

use crate::verdict::Verdict;

/// A notice to a client. `seq` counts the client's notices, from 1.
#[derive(Clone, Copy, Debug, PartialEq, Eq)]
pub enum Notice {
    /// The verdict of the client's order `order_no`, counted from 1.
    Verdict {
        seq: u64,
        order_no: u64,
        verdict: Verdict,
    },
    /// After tick `tick`, counted from 1, the robot was on the cell of the client's errand `number`, and the arrival
    /// closure returned the stamp.
    Arrived {
        seq: u64,
        number: u64,
        robot: u32,
        cell: u32,
        tick: u64,
        stamp: u32,
    },
}
