//! A robot that is to stand on the cell of an arrival.

/// An arrival in a turn: an errand is done, as the fleet has it.
#[derive(Clone, Copy, Debug, PartialEq, Eq)]
pub struct Arrived {
    /// The client whose errand it was.
    pub client: u32,
    /// The errand's number among the client's accepted errands.
    pub number: u64,
    /// The number of the notice of it among the client's notices.
    pub seq: u64,
    pub robot: u32,
}

/// An arrival, and where its robot is to stand.
#[derive(Clone, Copy, Debug, PartialEq, Eq)]
pub struct Stand {
    pub client: u32,
    pub number: u64,
    pub seq: u64,
    pub robot: u32,
    /// The cell of the arrival.
    pub cell: u32,
    /// The step in which it is planned.
    pub step: u64,
    /// The step of the robot's last move up to it; 0 if there is none.
    pub last: u64,
}
