//! Why a step is refused.

ghost use Rattle.std.specs.Prelude.{◌≡◌};
ghost use Rattle.fleet_check.specs.declared.fault.StepFault.TheVariants.{NoMemory};

use std::alloc::AllocError;
use thiserror::Error;

/// The first fault of a step, in this order. Robots are numbered from 0; of a pair, the lower number comes first.
#[derive(Clone, Copy, Debug, PartialEq, Eq, Error)]
pub enum StepFault {
    /// The new cells are not as many as the old ones.
    #[error("the new cells are not as many as the old ones")]
    Length,
    /// The first robot whose new cell is not floor.
    #[error("robot {0} leaves the floor")]
    OffFloor(u32),
    /// The first robot that neither stays nor crosses an edge.
    #[error("robot {0} neither stays nor crosses an edge")]
    NotAdjacent(u32),
    /// The search for conflicts ran out of memory.
    #[error("out of memory")]
    NoMemory,
    /// The first two robots with one new cell: a vertex conflict.
    #[error("robots {0} and {1} come to one cell")]
    Vertex(u32, u32),
    /// The first two robots that exchange their cells: a swapping conflict.
    #[error("robots {0} and {1} exchange their cells")]
    Swap(u32, u32),
}

impl From<AllocError> for StepFault {
    ghost from_gives = { λ _ e. e ≡ NoMemory };

    fn from(_error: AllocError) -> StepFault {
        StepFault::NoMemory
    }
}
