//! The word `vehicles`.

ghost use Rattle.std.specs.Prelude.{IfOk};
ghost use Rattle.clap.specs.Words.{found_of, rows_of};
ghost use Rattle.fleet_lib.specs.Asked.{IsVehicles};

use clap::ArgMatches;
use command_words::{Argument, Kind, Word, some_word_for};
use std::alloc::{AllocError, Global};

/// To stand between a fleet in real time and vehicles that are not in step.
#[derive(Debug, Drop)]
pub struct VehiclesJob {
    /// When a cell is clear: `arrived` or `started`.
    pub clearance: Option<String>,
    /// How many turns are made at most that are not carried out.
    pub ahead: Option<String>,
}

/// `vehicles [--clearance RULE] [--ahead N]`.
pub(crate) const VEHICLES: Word<'static> = Word {
    name: "vehicles",
    about: "Lets vehicles that are not in step carry out the turns of a fleet",
    example: "Example: tools/live/vehicles --seconds 60",
    arguments: &[
        Argument {
            name: "clearance",
            kind: Kind::Value("RULE"),
            help: "When a cell is clear: the robot has `arrived` on its next one, or `started`",
        },
        Argument {
            name: "ahead",
            kind: Kind::Number("N"),
            help: "How many turns are made that are not carried out; 10 if not given",
        },
    ],
};

/// What the arguments of `vehicles` ask for.
pub(crate) fn vehicles_in(
    alloc: Global,
    matches: &ArgMatches<'_>,
) -> Result<VehiclesJob, AllocError>
    ensures { IfOk result (λ asked. IsVehicles (rows_of (found_of matches.now)) asked) }
{
    let clearance = some_word_for(alloc, matches, "clearance")?;
    let ahead = some_word_for(alloc, matches, "ahead")?;
    Ok(VehiclesJob { clearance, ahead })
}
