//! Why a conversation breaks off.

use crate::ends::SinkFault;
use crate::input_line::LineFault;
use fleet_core::OpenFault;
use std::alloc::AllocError;

/// Why a conversation broke off.
#[derive(Clone, Copy, Debug, PartialEq, Eq)]
pub enum TalkFault {
    /// A line could not be read.
    Input,
    /// An answer could not be written.
    Output,
    /// A chapter could not be kept.
    Sink,
    /// The fleet was not opened.
    Opening(OpenFault),
    /// Its robots were to take turns, and the rooms of the map did not pass their checks.
    NoRooms,
    NoMemory,
}

impl From<AllocError> for TalkFault {
    ghost use Rattle.std.specs.Prelude.{◌≡◌};
    ghost use Rattle.fleet_talk.specs.declared.fault.TalkFault.TheVariants.{NoMemory};

    ghost from_gives = { λ _ f. f ≡ NoMemory };

    fn from(_error: AllocError) -> TalkFault {
        TalkFault::NoMemory
    }
}

impl From<LineFault> for TalkFault {
    ghost use Rattle.fleet_talk.specs.Broken.{IsMidway};

    ghost from_gives = { λ _ f. IsMidway f };

    fn from(fault: LineFault) -> TalkFault {
        match fault {
            LineFault::Read => TalkFault::Input,
            LineFault::NoMemory => TalkFault::NoMemory,
        }
    }
}

impl From<SinkFault> for TalkFault {
    ghost use Rattle.fleet_talk.specs.Broken.{IsMidway};

    ghost from_gives = { λ _ f. IsMidway f };

    fn from(fault: SinkFault) -> TalkFault {
        match fault {
            SinkFault::File => TalkFault::Sink,
            SinkFault::NoMemory => TalkFault::NoMemory,
        }
    }
}
