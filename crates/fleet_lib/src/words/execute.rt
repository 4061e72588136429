//! The word `execute`.

ghost use Rattle.std.specs.Prelude.{IfOk};
ghost use Rattle.clap.specs.Words.{found_of, rows_of};
ghost use Rattle.fleet_lib.specs.Asked.{IsExecute};

use crate::words::arguments::{FORM, MAP};
use crate::words::check::{FormAsked, form_in};
use clap::ArgMatches;
use command_words::{Argument, Kind, Word, some_word_for, word_for};
use std::alloc::{AllocError, Global};

/// To execute a plan on a map with robots that report.
#[derive(Debug, Drop)]
pub struct Execute {
    /// When a cell is clear: `arrived` or `started`.
    pub clearance: Option<String>,
    /// How many steps are planned at most that are not reached.
    pub ahead: Option<String>,
    pub form: FormAsked,
    pub map: String,
    pub plan: String,
}

/// `execute [--clearance RULE] [--ahead N] [--form FORM] MAP PLAN`.
pub(crate) const EXECUTE: Word<'static> = Word {
    name: "execute",
    about: "Executes a plan with robots that are not in step",
    example: "Example: fleet execute arena.map plan.txt < reports > moves",
    arguments: &[
        Argument {
            name: "clearance",
            kind: Kind::Value("RULE"),
            help: "When a cell is clear: the robot has `arrived` on its next one, or `started`",
        },
        Argument {
            name: "ahead",
            kind: Kind::Number("N"),
            help: "How many steps are looked at that not all robots reached; 10 if not given",
        },
        FORM,
        MAP,
        Argument {
            name: "PLAN",
            kind: Kind::File,
            help: "A plan in any form that `fleet check` reads",
        },
    ],
};

/// What the arguments of `execute` ask for.
pub(crate) fn execute_in(alloc: Global, matches: &ArgMatches<'_>) -> Result<Execute, AllocError>
    ensures { IfOk result (λ execute. IsExecute (rows_of (found_of matches.now)) execute) }
{
    let clearance = some_word_for(alloc, matches, "clearance")?;
    let ahead = some_word_for(alloc, matches, "ahead")?;
    let map = word_for(alloc, matches, "MAP")?;
    let plan = word_for(alloc, matches, "PLAN")?;
    Ok(Execute {
        clearance,
        ahead,
        form: form_in(matches),
        map,
        plan,
    })
}
