//! Why a run ended early.

use fleet_core::OpenFault;
use thiserror::Error;

/// Why a run ended early.
#[derive(Clone, Copy, Debug, PartialEq, Eq, Error)]
pub enum RunFault {
    /// The world was not opened.
    #[error("the world was not opened: {0}")]
    Opening(OpenFault),
    /// Out of memory at the event with this number, from 0.
    #[error("out of memory at event {0}")]
    NoMemory(usize),
}
