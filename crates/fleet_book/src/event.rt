//! What may happen in a run.

use crate::order::Order;

/// One event of a run.
#[derive(Clone, Copy, Debug, PartialEq, Eq)]
pub enum Event {
    /// The client pushes an order on its lane.
    Post(u32, Order),
    /// The client's next order goes from its lane into the world.
    Take(u32),
    /// All robots make one step.
    Tick,
    /// The client's next notice goes from the world to its outlet.
    Give(u32),
    /// The client takes a notice out of its outlet.
    Collect(u32),
    /// The robot refuses further errands.
    Shut(u32),
}
