//! What an order is answered, by number. No code has one of these numbers.

/// An order's errand joins its robot's queue.
pub const ACCEPTED: u32 = 101;
/// The client is closed from now on.
pub const CLOSING: u32 = 102;
/// The errand has left its robot's queue.
pub const WITHDRAWN: u32 = 103;
/// Refused: the client is closed.
pub const CLIENT_CLOSED: u32 = 104;
/// Refused: there is no robot with this number.
pub const UNKNOWN_ROBOT: u32 = 105;
/// Refused: the robot takes no further errands.
pub const ROBOT_SHUT: u32 = 106;
/// Refused: the cell's number is not below height times width.
pub const NO_CELL: u32 = 107;
/// Refused: the cell is not floor.
pub const BLOCKED: u32 = 108;
/// Refused: the cell is in another part of the floor than the robot.
pub const UNREACHABLE: u32 = 109;
/// Refused: the robot's queue is full.
pub const QUEUE_FULL: u32 = 110;
/// Refused: the client has had all the errands accepted that it may have.
pub const LIFE_SPENT: u32 = 111;
/// Refused: no unfinished errand of the client has this number.
pub const NO_ERRAND: u32 = 112;
/// Refused: the errand is its robot's front.
pub const TOO_LATE: u32 = 113;
