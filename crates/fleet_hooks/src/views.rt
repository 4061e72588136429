//! The arguments that the closures get.

use fleet_grid::Dir;

/// A robot that may leave its cell, the floor neighbour in question, and the tick that is being made.
#[derive(Clone, Copy, Debug, PartialEq, Eq)]
pub struct TieView {
    pub robot: u32,
    pub cell: u32,
    pub neighbour: u32,
    /// The direction from the cell to the neighbour.
    pub dir: Dir,
    pub tick: u64,
}

/// An errand that has arrived: whose it was, its number among that client's errands, and where and when it ended.
#[derive(Clone, Copy, Debug, PartialEq, Eq)]
pub struct ArrivalView {
    pub client: u32,
    pub number: u64,
    pub robot: u32,
    pub cell: u32,
    pub tick: u64,
}

/// A robot that is shut and has no errands left, with its cell and the tick: the one that is being made, or at a shut
/// the number of ticks made so far.
#[derive(Clone, Copy, Debug, PartialEq, Eq)]
pub struct FarewellView {
    pub robot: u32,
    pub cell: u32,
    pub tick: u64,
}
