//! The word `change`.

ghost use Rattle.std.specs.Prelude.{IfOk};
ghost use Rattle.clap.specs.Words.{found_of, rows_of};
ghost use Rattle.fleet_lib.specs.Asked.{IsChange};

use crate::words::arguments::MAP;
use clap::ArgMatches;
use command_words::{Argument, Kind, Word, has_flag, word_for, words_for};
use std::alloc::{AllocError, Global};

/// To change the site of a fleet that does not run.
#[derive(Debug, Drop)]
pub struct ChangeJob {
    /// The folder of its chapters.
    pub traces: String,
    /// Where the map after the changes is written.
    pub to: String,
    /// Whether robots may get other numbers in `live` and `talk`.
    pub renumber: bool,
    /// Whether nothing is written.
    pub dry_run: bool,
    pub map: String,
    /// One or more, in their order.
    pub changes: Vec<String>,
}

/// `change --traces DIR --to OUT [--renumber] [--dry-run] MAP CHANGE..`.
pub(crate) const CHANGE: Word<'static> = Word {
    name: "change",
    about: "Changes the site of a fleet between two runs",
    example: "Example: fleet change --traces history --to new.map ring.map 'block 7'",
    arguments: &[
        Argument {
            name: "traces",
            kind: Kind::RequiredValue("DIR"),
            help: "The folder of its chapters",
        },
        Argument {
            name: "to",
            kind: Kind::RequiredValue("OUT"),
            help: "The new map",
        },
        Argument {
            name: "renumber",
            kind: Kind::Flag,
            help: "Robots may get other numbers",
        },
        Argument {
            name: "dry-run",
            kind: Kind::Flag,
            help: "Write nothing",
        },
        MAP,
        Argument {
            name: "CHANGE",
            kind: Kind::Files,
            help: "block, open, join CELL; leave, hold, free R; move R CELL; cancel C K",
        },
    ],
};

/// What the arguments of `change` ask for.
pub(crate) fn change_in(alloc: Global, matches: &ArgMatches<'_>) -> Result<ChangeJob, AllocError>
    ensures { IfOk result (λ change. IsChange (rows_of (found_of matches.now)) change) }
{
    let traces = word_for(alloc, matches, "traces")?;
    let to = word_for(alloc, matches, "to")?;
    let map = word_for(alloc, matches, "MAP")?;
    let changes = words_for(alloc, matches, "CHANGE")?;
    Ok(ChangeJob {
        traces,
        to,
        renumber: has_flag(matches, "renumber"),
        dry_run: has_flag(matches, "dry-run"),
        map,
        changes,
    })
}
