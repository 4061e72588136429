//! An errand of a client.

/// An accepted errand: a client sends a robot to a cell.
#[derive(Clone, Copy, Debug, PartialEq, Eq)]
pub struct Errand {
    /// The client, from 0.
    pub client: u32,
    /// The errand's number among the client's accepted errands, from 1.
    pub number: u64,
    /// The cell, `row * width + column`.
    pub cell: u32,
}
