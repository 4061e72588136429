//! The word `live`.

ghost use Rattle.std.specs.Prelude.{◌≡◌, IfOk};
ghost use Rattle.clap.specs.Words.{found_of, rows_of};
ghost use Rattle.fleet_lib.specs.Asked.{IsLive};

use crate::words::arguments::{
    CHAPTER_BYTES, JOURNAL, MAP, PLANNER, RESUME, RESUME_ONLY, ROOMY, SCRIPT, TRACES,
};
use clap::ArgMatches;
use command_words::{Argument, Kind, Word, has_flag, some_word_for, some_words_for, word_for};
use std::alloc::{AllocError, Global};

/// To keep a fleet in real time.
#[derive(Debug, Drop)]
pub struct Live {
    pub map: String,
    /// A file of header lines.
    pub script: Option<String>,
    /// The start cells of the robots, with commas between them.
    pub robots: Option<String>,
    /// The number of clients.
    pub clients: Option<String>,
    /// The time between two turns.
    pub period: Option<String>,
    /// The number of tickers.
    pub tickers: Option<String>,
    /// The folder for the traces of chapters.
    pub traces: Option<String>,
    /// Whether the fleet goes on from the last chapter in the folder.
    pub resume: bool,
    /// Whether it goes on, or is refused.
    pub resume_only: bool,
    /// How often a chapter is kept at least.
    pub keep_every: Option<String>,
    /// Whether each entry is on the disk before anything is told that follows from it.
    pub journal: bool,
    /// How many notices of each client are kept to be told again.
    pub recall: Option<String>,
    /// The bytes of a chapter's text.
    pub chapter_bytes: Option<String>,
    /// The file for figures.
    pub metrics: Option<String>,
    /// The pipes of clients 0, 1, ..: the pipe from which their lines come, a comma, and the pipe for what is printed
    /// for them.
    pub pipes: Vec<String>,
    /// Whether tick lines are printed from the start.
    pub watch: bool,
    /// Whether the fleet goes on without a first conversation.
    pub service: bool,
    /// Whether posts to cells that are not roomy are refused.
    pub roomy: bool,
    /// How ticks are planned.
    pub planner: Option<String>,
}

/// `live [--robots CELLS] [--clients N] [--period TIME] [--tickers N] [--client IN,OUT].. [--watch] [--service] [--roomy]
/// [--planner NAME] [--traces DIR] [--resume] [--resume-only] [--keep-every TIME] [--journal] [--recall N] [--chapter-bytes N] [--metrics FILE] MAP [SCRIPT]`.
pub(crate) const LIVE: Word<'static> = Word {
    name: "live",
    about: "Keeps a fleet in real time for clients that post errands",
    example: "Example: fleet live --robots 0,8 --period 20ms ring.map",
    arguments: &[
        Argument {
            name: "robots",
            kind: Kind::Value("CELLS"),
            help: "The robots' start cells, as 0,5,9",
        },
        Argument {
            name: "clients",
            kind: Kind::Value("N"),
            help: "The number of clients, 1 if not given",
        },
        Argument {
            name: "period",
            kind: Kind::Value("TIME"),
            help: "The time between two turns, as 20ms; without it a turn is made by `tick`",
        },
        Argument {
            name: "tickers",
            kind: Kind::Value("N"),
            help: "Gone",
        },
        Argument {
            name: "client",
            kind: Kind::Values("IN,OUT"),
            help: "The named pipes of the next client, from 0: its lines, and what it is told",
        },
        Argument {
            name: "watch",
            kind: Kind::Flag,
            help: "Say where the robots stand after each tick",
        },
        Argument {
            name: "service",
            kind: Kind::Flag,
            help: "Only the line `quit` ends the fleet, not the end of the input",
        },
        ROOMY,
        PLANNER,
        TRACES,
        RESUME,
        RESUME_ONLY,
        Argument {
            name: "keep-every",
            kind: Kind::Value("TIME"),
            help: "Write a chapter at least so often, as 10s",
        },
        JOURNAL,
        Argument {
            name: "recall",
            kind: Kind::Value("N"),
            help: "How many notices of each client are kept for `since`",
        },
        CHAPTER_BYTES,
        Argument {
            name: "metrics",
            kind: Kind::Value("FILE"),
            help: "Write figures into FILE each second (Prometheus)",
        },
        MAP,
        SCRIPT,
    ],
};

/// What the arguments of `live` ask for.
pub(crate) fn live_in(alloc: Global, matches: &ArgMatches<'_>) -> Result<Live, AllocError>
    ensures { IfOk result (λ live. IsLive (rows_of (found_of matches.now)) live) }
{
    let map = word_for(alloc, matches, "MAP")?;
    let script = some_word_for(alloc, matches, "SCRIPT")?;
    let robots = some_word_for(alloc, matches, "robots")?;
    let clients = some_word_for(alloc, matches, "clients")?;
    let period = some_word_for(alloc, matches, "period")?;
    let tickers = some_word_for(alloc, matches, "tickers")?;
    let traces = some_word_for(alloc, matches, "traces")?;
    let keep_every = some_word_for(alloc, matches, "keep-every")?;
    let recall = some_word_for(alloc, matches, "recall")?;
    let chapter_bytes = some_word_for(alloc, matches, "chapter-bytes")?;
    let metrics = some_word_for(alloc, matches, "metrics")?;
    let planner = some_word_for(alloc, matches, "planner")?;
    let pipes = some_words_for(alloc, matches, "client")?;
    Ok(Live {
        map,
        script,
        robots,
        clients,
        period,
        tickers,
        traces,
        resume: has_flag(matches, "resume"),
        resume_only: has_flag(matches, "resume-only"),
        keep_every,
        journal: has_flag(matches, "journal"),
        recall,
        chapter_bytes,
        metrics,
        pipes,
        watch: has_flag(matches, "watch"),
        service: has_flag(matches, "service"),
        roomy: has_flag(matches, "roomy"),
        planner,
    })
}
