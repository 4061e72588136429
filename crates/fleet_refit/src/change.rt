//! What may change at a site, and why it may not.

use fleet_hooks::StampLaw;

/// One change of a site. Cells are `row * width + column`; robots and clients count from 0, errands from 1.
#[derive(Clone, Copy, Debug, PartialEq, Eq)]
pub enum Change {
    /// The floor cell becomes a wall.
    Block {
        cell: u32,
    },
    /// The wall becomes floor.
    Open {
        cell: u32,
    },
    /// A new robot, which gets the next number, stands on the cell.
    Join {
        cell: u32,
        arrival_law: StampLaw,
        farewell_law: StampLaw,
    },
    /// The robot is taken away. Its number is not given again, and its errands are dropped.
    Leave {
        robot: u32,
    },
    /// The robot cannot move: its cell is planned around like a wall. It keeps its errands.
    Hold {
        robot: u32,
    },
    /// The robot that was held can move again.
    Free {
        robot: u32,
    },
    /// The robot was carried to the cell.
    Move {
        robot: u32,
        cell: u32,
    },
    /// The client's unfinished errand is dropped, also where it is in front.
    Cancel {
        client: u32,
        number: u64,
    },
}

/// Why a change cannot be made.
#[derive(Clone, Copy, Debug, PartialEq, Eq)]
pub enum ChangeFault {
    /// The map has no such cell.
    NoCell,
    /// The cell is a wall.
    IsWall,
    /// The cell is floor already.
    IsFloor,
    /// This robot stands on the cell.
    IsTaken { robot: u32 },
    /// No robot has this number, or it was taken away.
    NoRobot,
    /// The robot is held already.
    IsHeld,
    /// The robot is not held.
    NotHeld,
    /// There have been 512 robots.
    TooMany,
    /// A law has no stamp.
    NoStamp,
    /// The client has no unfinished errand of this number.
    NoErrand,
    /// Memory was refused.
    NoMemory,
}

/// An errand that will not arrive, since the site changed.
#[derive(Clone, Copy, Debug, PartialEq, Eq)]
pub struct Dropped {
    /// The robot that had it.
    pub robot: u32,
    /// The client whose errand it was.
    pub client: u32,
    /// The errand's number among the client's accepted errands.
    pub number: u64,
    /// The cell to which it was.
    pub cell: u32,
}
