//! The word `sim`.

ghost use Rattle.std.specs.Prelude.{◌≡◌, IfOk};
ghost use Rattle.clap.specs.Words.{found_of, rows_of};
ghost use Rattle.fleet_lib.specs.Asked.{IsSimJob};

use crate::words::arguments::{MAP, PLANNER};
use clap::ArgMatches;
use command_words::{Argument, Kind, Word, has_flag, some_word_for, word_for};
use std::alloc::{AllocError, Global};

/// To run experiments on a map.
#[derive(Debug, Drop)]
pub struct SimJob {
    pub map: String,
    /// The numbers of robots, with commas between them.
    pub robots: Option<String>,
    /// The number of ticks that are counted.
    pub ticks: Option<String>,
    /// The number of ticks before these.
    pub warm_up: Option<String>,
    /// The number of runs for each number of robots.
    pub seeds: Option<String>,
    /// A file with a list of cells.
    pub cells: Option<String>,
    /// A file with a scenario.
    pub scenario: Option<String>,
    /// A file with a list of tasks.
    pub tasks: Option<String>,
    /// Whether errands go to roomy cells only.
    pub roomy: bool,
    /// How ticks are planned.
    pub planner: Option<String>,
    /// How ties are decided.
    pub ties: Option<String>,
    /// The folder for the trace of a run.
    pub traces: Option<String>,
    /// Whether times are told.
    pub times: bool,
    pub csv: bool,
    pub json: bool,
}

/// `sim --robots LIST --ticks N [--warm-up N] [--seeds N] [--cells FILE | --scen FILE | --tasks FILE] [--roomy] [--planner NAME] [--ties NAME] [--traces DIR] [--times] [--csv] [--json] MAP`.
pub(crate) const SIM: Word<'static> = Word {
    name: "sim",
    about: "Runs lifelong experiments on a map, and prints a table of them",
    example: "Example: fleet sim --robots 64,128 --ticks 1000 --seeds 5 warehouse.map",
    arguments: &[
        Argument {
            name: "robots",
            kind: Kind::Value("LIST"),
            help: "The numbers of robots, as 64,128",
        },
        Argument {
            name: "ticks",
            kind: Kind::Value("N"),
            help: "The ticks that are counted",
        },
        Argument {
            name: "warm-up",
            kind: Kind::Value("N"),
            help: "The ticks before these; 0 if not given",
        },
        Argument {
            name: "seeds",
            kind: Kind::Value("N"),
            help: "Runs with the seeds 1 to N; 1 if not given",
        },
        Argument {
            name: "cells",
            kind: Kind::Value("FILE"),
            help: "Send robots to the cells of this file only",
        },
        Argument {
            name: "scen",
            kind: Kind::Value("FILE"),
            help: "Take starts and errands from this MovingAI scenario",
        },
        Argument {
            name: "tasks",
            kind: Kind::Value("FILE"),
            help: "Take errands from this task list of the League of Robot Runners",
        },
        Argument {
            name: "roomy",
            kind: Kind::Flag,
            help: "Send robots to roomy cells only",
        },
        PLANNER,
        Argument {
            name: "ties",
            kind: Kind::Value("NAME"),
            help: "How ties are decided: plain or random; plain if not given",
        },
        Argument {
            name: "traces",
            kind: Kind::Value("DIR"),
            help: "Write the trace of the first run into this folder",
        },
        Argument {
            name: "times",
            kind: Kind::Flag,
            help: "Tell how long the steps took",
        },
        Argument {
            name: "csv",
            kind: Kind::Flag,
            help: "Print lines with commas",
        },
        Argument {
            name: "json",
            kind: Kind::Flag,
            help: "Print a list of JSON objects",
        },
        MAP,
    ],
};

/// What the arguments of `sim` ask for.
pub(crate) fn sim_in(alloc: Global, matches: &ArgMatches<'_>) -> Result<SimJob, AllocError>
    ensures { IfOk result (λ asked. IsSimJob (rows_of (found_of matches.now)) asked) }
{
    let map = word_for(alloc, matches, "MAP")?;
    let robots = some_word_for(alloc, matches, "robots")?;
    let ticks = some_word_for(alloc, matches, "ticks")?;
    let warm_up = some_word_for(alloc, matches, "warm-up")?;
    let seeds = some_word_for(alloc, matches, "seeds")?;
    let cells = some_word_for(alloc, matches, "cells")?;
    let scenario = some_word_for(alloc, matches, "scen")?;
    let tasks = some_word_for(alloc, matches, "tasks")?;
    let planner = some_word_for(alloc, matches, "planner")?;
    let ties = some_word_for(alloc, matches, "ties")?;
    let traces = some_word_for(alloc, matches, "traces")?;
    Ok(SimJob {
        map,
        robots,
        ticks,
        warm_up,
        seeds,
        cells,
        scenario,
        tasks,
        roomy: has_flag(matches, "roomy"),
        planner,
        ties,
        traces,
        times: has_flag(matches, "times"),
        csv: has_flag(matches, "csv"),
        json: has_flag(matches, "json"),
    })
}
