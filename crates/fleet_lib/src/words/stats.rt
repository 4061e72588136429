//! The word `stats`.

ghost use Rattle.std.specs.Prelude.{◌≡◌, if◌then◌else◌, IfOk};
ghost use Rattle.clap.specs.Words.{found_of, rows_of};
ghost use Rattle.fleet_lib.specs.Asked.{IsStats, figures_by, figures_in, table_named};

use crate::words::arguments::MAP;
use clap::ArgMatches;
use command_words::{Argument, Kind, Word, has_flag, some_word_for, word_for, words_for};
use std::alloc::{AllocError, Global};

/// How figures are printed.
#[derive(Clone, Copy, Debug, PartialEq, Eq)]
pub enum Figures {
    /// As lines `NAME VALUE`.
    Lines,
    /// As a JSON object.
    Json,
    /// As a table of the errands that were done.
    Errands,
    /// As a table of the errands that are left.
    Unfinished,
    /// As a table of the robots.
    Robots,
    /// As a table of the clients.
    Clients,
    /// As a table of the ticks.
    Ticks,
    /// As a table of the cells.
    Cells,
}

/// To print figures of traces on a map.
#[derive(Debug, Drop)]
pub struct Stats {
    pub map: String,
    /// One or more, in their order.
    pub traces: Vec<String>,
    /// `None` if the word is not the name of a table, or JSON is asked for too.
    pub figures: Option<Figures>,
    /// The number of ticks that are left out.
    pub warm_up: Option<String>,
}

/// `stats [--json] [--csv TABLE] [--warm-up N] MAP TRACE..`.
pub(crate) const STATS: Word<'static> = Word {
    name: "stats",
    about: "Prints figures of traces: throughput, service times, travels, delays",
    example: "Example: fleet stats --csv errands ring.map two_robots.trace > errands.csv",
    arguments: &[
        Argument {
            name: "json",
            kind: Kind::Flag,
            help: "Print a JSON object in place of lines",
        },
        Argument {
            name: "csv",
            kind: Kind::Value("TABLE"),
            help: "Print a table: errands, unfinished, robots, clients, ticks or cells",
        },
        Argument {
            name: "warm-up",
            kind: Kind::Value("N"),
            help: "Leave out the first N ticks",
        },
        MAP,
        Argument {
            name: "TRACE",
            kind: Kind::Files,
            help: "Traces of `errands`, `talk` or `live`, chapters in order; or a plan",
        },
    ],
};

/// The table with a given name.
fn table_named(name: &str) -> Option<Figures>
    ensures { result ≡ table_named name.now }
{
    if name == "errands" {
        Some(Figures::Errands)
    } else if name == "unfinished" {
        Some(Figures::Unfinished)
    } else if name == "robots" {
        Some(Figures::Robots)
    } else if name == "clients" {
        Some(Figures::Clients)
    } else if name == "ticks" {
        Some(Figures::Ticks)
    } else if name == "cells" {
        Some(Figures::Cells)
    } else {
        None
    }
}

/// How figures are printed without a table.
fn without_table(json: bool) -> Figures
    ensures { result ≡ if json then Figures.Json else Figures.Lines }
{
    if json { Figures::Json } else { Figures::Lines }
}

/// How figures are to be printed.
fn figures_in(matches: &ArgMatches<'_>) -> Option<Figures>
    ensures { result ≡ figures_in (rows_of (found_of matches.now)) }
{
    let json = has_flag(matches, "json");
    match matches.get_str("csv") {
        Some(word) => { if json { None } else { table_named(word) } }
        None => Some(without_table(json)),
    }
}

/// What the arguments of `stats` ask for.
pub(crate) fn stats_in(alloc: Global, matches: &ArgMatches<'_>) -> Result<Stats, AllocError>
    ensures { IfOk result (λ stats. IsStats (rows_of (found_of matches.now)) stats) }
{
    let figures = figures_in(matches);
    let map = word_for(alloc, matches, "MAP")?;
    let traces = words_for(alloc, matches, "TRACE")?;
    let warm_up = some_word_for(alloc, matches, "warm-up")?;
    Ok(Stats {
        map,
        traces,
        figures,
        warm_up,
    })
}
