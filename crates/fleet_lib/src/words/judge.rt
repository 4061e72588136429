//! The word `judge`.

ghost use Rattle.std.specs.Prelude.{IfOk};
ghost use Rattle.clap.specs.Words.{found_of, rows_of};
ghost use Rattle.fleet_lib.specs.Asked.{IsJudge};

use crate::words::arguments::MAP;
use clap::ArgMatches;
use command_words::{Argument, Kind, Word, word_for, words_for};
use std::alloc::{AllocError, Global};

/// To judge traces on a map.
#[derive(Debug, Drop)]
pub struct Judge {
    pub map: String,
    /// One or more, in their order.
    pub traces: Vec<String>,
}

/// `judge MAP TRACE..`.
pub(crate) const JUDGE: Word<'static> = Word {
    name: "judge",
    about: "Judges traces on a map: whether each entry is legal after those before it",
    example: "Example: fleet judge ring.map history/chapter-*.json",
    arguments: &[
        MAP,
        Argument {
            name: "TRACE",
            kind: Kind::Files,
            help: "Traces, of at most 1 GiB each",
        },
    ],
};

/// What the arguments of `judge` ask for.
pub(crate) fn judge_in(alloc: Global, matches: &ArgMatches<'_>) -> Result<Judge, AllocError>
    ensures { IfOk result (λ judge. IsJudge (rows_of (found_of matches.now)) judge) }
{
    let map = word_for(alloc, matches, "MAP")?;
    let traces = words_for(alloc, matches, "TRACE")?;
    Ok(Judge { map, traces })
}
