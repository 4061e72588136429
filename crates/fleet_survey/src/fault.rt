//! Why a list of cells is not read, or nothing told of a map.

use fleet_map::MapFault;
use std::alloc::AllocError;

/// Why no cells are read from a text.
#[derive(Clone, Copy, Debug, PartialEq, Eq)]
pub enum CellsFault {
    /// The first line, counted from 1, with a word that is no floor cell of the map.
    Line(u64),
    NoMemory,
}

impl From<AllocError> for CellsFault {
    ghost use Rattle.std.specs.Prelude.{◌≡◌};
    ghost use Rattle.fleet_survey.specs.declared.fault.CellsFault.TheVariants.{NoMemory};

    ghost from_gives = { λ _ e. e ≡ NoMemory };

    fn from(_error: AllocError) -> CellsFault {
        CellsFault::NoMemory
    }
}

/// Why nothing is told of the text of a map.
#[derive(Clone, Copy, Debug, PartialEq, Eq)]
pub enum SurveyFault {
    /// The bytes are not a map.
    Map(MapFault),
    /// The first line of the list of cells with a word that is no floor cell of the map.
    Cells(u64),
    NoMemory,
}

impl From<AllocError> for SurveyFault {
    ghost use Rattle.std.specs.Prelude.{◌≡◌};
    ghost use Rattle.fleet_survey.specs.declared.fault.SurveyFault.TheVariants.{NoMemory};

    ghost from_gives = { λ _ e. e ≡ NoMemory };

    fn from(_error: AllocError) -> SurveyFault {
        SurveyFault::NoMemory
    }
}
