//! Why no step is made.

use thiserror::Error;

/// The first fault of what a step is asked for, in this order. Robots and places are numbered from 0.
#[derive(Clone, Copy, Debug, PartialEq, Eq, Error)]
pub enum Refusal {
    /// The map has another number of cells than the shield was made for.
    #[error("the map has another number of cells than the shield was made for")]
    Map,
    /// The cells, the order, the preferences or the new cells are not as many as the robots need.
    #[error("a list is not as long as the number of robots asks")]
    Length,
    /// The first robot off the floor stands beyond the last cell.
    #[error("robot {0} stands beyond the map")]
    Outside(u32),
    /// The first robot off the floor stands on a wall.
    #[error("robot {0} stands on a wall")]
    Wall(u32),
    /// The second is the first robot whose cell a lower robot has, which is the first.
    #[error("robots {0} and {1} stand on one cell")]
    Shared(u32, u32),
    /// The first place of the order with a number that no robot has.
    #[error("place {0} of the order names no robot")]
    Unknown(u32),
    /// The first place of the order with a robot that an earlier place names.
    #[error("place {0} of the order names a robot again")]
    Twice(u32),
    /// The first robot with a preference that is neither its own cell nor a neighbour of it, and the place of the first
    /// such.
    #[error("preference {1} of robot {0} is neither its cell nor next to it")]
    Far(u32, u32),
}
