//! What a client orders.

/// An order of a client.
#[derive(Clone, Copy, Debug, PartialEq, Eq)]
pub enum Order {
    /// The robot is to go to the cell.
    Go { robot: u32, cell: u32 },
    /// The client's last order.
    Close,
    /// The client's unfinished errand of this number is to be given up.
    Withdraw { number: u64 },
}
