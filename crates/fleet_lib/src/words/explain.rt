//! The word `explain`.

ghost use Rattle.std.specs.Prelude.{◌≡◌, IfOk};
ghost use Rattle.clap.specs.Words.{found_of, rows_of};
ghost use Rattle.fleet_lib.specs.Asked.{IsExplain};

use crate::words::arguments::MAP;
use clap::ArgMatches;
use command_words::{Argument, Kind, Word, has_flag, some_word_for, word_for};
use std::alloc::{AllocError, Global};

/// To say what is wrong with a map, or with a script, a trace or a plan on it.
#[derive(Debug, Drop)]
pub struct Explain {
    /// Whether `other` is looked at as the header lines of a conversation.
    pub head: bool,
    pub map: String,
    /// A script, a trace or a plan, if one is named.
    pub other: Option<String>,
}

/// `explain [--head] MAP [INPUT]`.
pub(crate) const EXPLAIN: Word<'static> = Word {
    name: "explain",
    about: "Says what is wrong with a map, or with a script, a trace or a plan on it",
    example: "Example: fleet explain ring.map two_robots.script",
    arguments: &[
        Argument {
            name: "head",
            kind: Kind::Flag,
            help: "Look at INPUT as the header lines of `talk` or `live`",
        },
        MAP,
        Argument {
            name: "INPUT",
            kind: Kind::OptionalFile,
            help: "A script, a trace, or a plan",
        },
    ],
};

/// What the arguments of `explain` ask for.
pub(crate) fn explain_in(alloc: Global, matches: &ArgMatches<'_>) -> Result<Explain, AllocError>
    ensures { IfOk result (λ explain. IsExplain (rows_of (found_of matches.now)) explain) }
{
    let map = word_for(alloc, matches, "MAP")?;
    let other = some_word_for(alloc, matches, "INPUT")?;
    Ok(Explain {
        head: has_flag(matches, "head"),
        map,
        other,
    })
}
