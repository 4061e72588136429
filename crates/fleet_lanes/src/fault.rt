//! Why a client's order was not sent.

use fleet_book::Order;
use thiserror::Error;

/// Why an order was not sent. All variants except the first return the order.
#[derive(Clone, Copy, Debug, PartialEq, Eq, Error)]
pub enum PostFault {
    /// Close was sent before.
    #[error("the client sent Close before")]
    Closed,
    /// No free slot was found in the lane.
    #[error("the lane is full")]
    LaneFull(Order),
    /// All numbers except the last were sent, and the last is reserved for `Close`.
    #[error("all order numbers but the last were sent")]
    NumbersSpent(Order),
}
