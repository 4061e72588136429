//! Why a fleet stops.

use fleet_talk::SinkFault;
use std::alloc::AllocError;

/// Why the fleet stops.
#[derive(Clone, Copy, Debug, PartialEq, Eq)]
pub enum Stop {
    /// The first conversation ended.
    Quit,
    /// A line of the first conversation could not be read.
    Input,
    /// The reader of the first conversation's output went away.
    Output,
    /// A chapter could not be kept.
    Sink,
    /// No tick can follow.
    Limit,
    NoMemory,
}

impl From<AllocError> for Stop {
    fn from(_error: AllocError) -> Stop {
        Stop::NoMemory
    }
}

impl From<SinkFault> for Stop {
    fn from(fault: SinkFault) -> Stop {
        match fault {
            SinkFault::File => Stop::Sink,
            SinkFault::NoMemory => Stop::NoMemory,
        }
    }
}
