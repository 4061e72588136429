//! What the world knows of an order before it is judged.

/// The place, in a robot's queue, of the errand that an order names.
#[derive(Clone, Copy, Debug, PartialEq, Eq)]
pub enum Place {
    /// No robot has an unfinished errand of the client with this number.
    Absent,
    /// It is its robot's front.
    Front,
    /// It stands after its robot's front.
    Behind,
}

/// The facts about an order that the book's counts do not show. Those from `robot_known` to `queue_full` matter only
/// for a `Go`, and `place` only for a `Withdraw`.
#[derive(Clone, Copy, Debug, PartialEq, Eq)]
pub struct Facts {
    /// There is a robot of the order's number.
    pub robot_known: bool,
    /// The cell's number is below height times width.
    pub in_range: bool,
    /// The cell is floor.
    pub floor: bool,
    /// The cell is in the robot's part of the floor.
    pub same_part: bool,
    /// The robot's queue has no room.
    pub queue_full: bool,
    /// The place of the errand that a `Withdraw` names.
    pub place: Place,
}
