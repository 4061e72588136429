//! The word `talk`.

ghost use Rattle.std.specs.Prelude.{◌≡◌, IfOk};
ghost use Rattle.clap.specs.Words.{found_of, rows_of};
ghost use Rattle.fleet_lib.specs.Asked.{IsTalk};

use crate::words::arguments::{
    CHAPTER_BYTES, JOURNAL, MAP, PLANNER, RESUME, RESUME_ONLY, ROOMY, SCRIPT, TRACES,
};
use clap::ArgMatches;
use command_words::{Argument, Kind, Word, has_flag, some_word_for, word_for};
use std::alloc::{AllocError, Global};

/// To talk to a fleet on a map.
#[derive(Debug, Drop)]
pub struct Talk {
    pub map: String,
    /// A file of header lines.
    pub script: Option<String>,
    /// The folder for the traces of chapters.
    pub traces: Option<String>,
    /// Whether nothing is told before the entries that it follows from are on the disk.
    pub journal: bool,
    /// Whether the fleet goes on from the last chapter in the folder.
    pub resume: bool,
    /// Whether it goes on, or is refused.
    pub resume_only: bool,
    /// Whether the answer to line N ends with a line `. N`.
    pub marks: bool,
    /// Whether full chapters are handed out unasked.
    pub roll: bool,
    /// The bytes that the text of one may have then.
    pub chapter_bytes: Option<String>,
    /// Whether posts to cells that are not roomy are refused.
    pub roomy: bool,
    /// How ticks are planned.
    pub planner: Option<String>,
}

/// `talk [--marks] [--roll] [--chapter-bytes N] [--roomy] [--planner NAME] [--traces DIR] [--journal] [--resume]
/// [--resume-only] MAP [SCRIPT]`.
pub(crate) const TALK: Word<'static> = Word {
    name: "talk",
    about: "Talks to a fleet: answers each line as soon as it is read",
    example: "Example: fleet talk ring.map",
    arguments: &[
        Argument {
            name: "marks",
            kind: Kind::Flag,
            help: "End the answer to line N with a line `. N`",
        },
        Argument {
            name: "roll",
            kind: Kind::Flag,
            help: "Begin the next chapter where one is full or long",
        },
        CHAPTER_BYTES,
        ROOMY,
        PLANNER,
        TRACES,
        JOURNAL,
        RESUME,
        RESUME_ONLY,
        MAP,
        SCRIPT,
    ],
};

/// What the arguments of `talk` ask for.
pub(crate) fn talk_in(alloc: Global, matches: &ArgMatches<'_>) -> Result<Talk, AllocError>
    ensures { IfOk result (λ talk. IsTalk (rows_of (found_of matches.now)) talk) }
{
    let map = word_for(alloc, matches, "MAP")?;
    let script = some_word_for(alloc, matches, "SCRIPT")?;
    let traces = some_word_for(alloc, matches, "traces")?;
    let chapter_bytes = some_word_for(alloc, matches, "chapter-bytes")?;
    let planner = some_word_for(alloc, matches, "planner")?;
    Ok(Talk {
        map,
        script,
        traces,
        journal: has_flag(matches, "journal"),
        resume: has_flag(matches, "resume"),
        resume_only: has_flag(matches, "resume-only"),
        marks: has_flag(matches, "marks"),
        roll: has_flag(matches, "roll"),
        chapter_bytes,
        roomy: has_flag(matches, "roomy"),
        planner,
    })
}
