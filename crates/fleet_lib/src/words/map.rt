//! The word `map`.

ghost use Rattle.std.specs.Prelude.{◌≡◌, IfOk};
ghost use Rattle.clap.specs.Words.{found_of, rows_of};
ghost use Rattle.fleet_lib.specs.Asked.{IsMapJob, IsRobotsAsked};

use crate::words::arguments::MAP;
use clap::ArgMatches;
use command_words::{Argument, Kind, Word, has_flag, some_word_for, word_for};
use std::alloc::{AllocError, Global};

/// To say what a map offers for a number of robots.
#[derive(Debug, Drop)]
pub struct MapJob {
    pub robots: Option<u32>,
    /// A file with a list of cells.
    pub cells: Option<String>,
    /// Whether to print the map without the cells that are not roomy, in place of figures.
    pub prune: bool,
    /// Whether to print a picture.
    pub svg: bool,
    /// Whether to print walls that, opened, make cells roomy.
    pub mend: bool,
    pub json: bool,
    pub map: String,
}

/// `map --robots N [--cells FILE] [--json] [--prune] [--svg] [--mend] MAP`.
pub(crate) const MAP_WORD: Word<'static> = Word {
    name: "map",
    about: "Says what a map offers N robots: bridges, dead ends, roomy cells, promises",
    example: "Example: fleet map --robots 60 --cells stations.txt warehouse.map",
    arguments: &[
        Argument {
            name: "robots",
            kind: Kind::Number("N"),
            help: "The number of robots, from 1 to 512",
        },
        Argument {
            name: "cells",
            kind: Kind::Value("FILE"),
            help: "Say for how many robots all cells of this file are roomy: numbers, or X,Y",
        },
        Argument {
            name: "json",
            kind: Kind::Flag,
            help: "Print a JSON object in place of lines",
        },
        Argument {
            name: "prune",
            kind: Kind::Flag,
            help: "Print the map with walls for cells that are not roomy, until all are",
        },
        Argument {
            name: "svg",
            kind: Kind::Flag,
            help: "Print a picture of the map, its bridges and cells that are not roomy (SVG)",
        },
        Argument {
            name: "mend",
            kind: Kind::Flag,
            help: "Print walls that, opened, make cells roomy, by a rule of thumb",
        },
        MAP,
    ],
};

/// How many robots the words ask for.
fn robots_in(matches: &ArgMatches<'_>) -> Result<Option<u32>, AllocError>
    ensures { IfOk result (IsRobotsAsked (rows_of (found_of matches.now))) }
{
    match matches.get_str("robots") {
        Some(word) => match word.parse::<u32>() {
            Ok(count) => Ok(Some(count)),
            // `clap` took it for a number of this range, so this never runs
            Err(_) => Err(AllocError),
        },
        None => Ok(None),
    }
}

/// What the arguments of `map` ask for.
pub(crate) fn map_in(alloc: Global, matches: &ArgMatches<'_>) -> Result<MapJob, AllocError>
    ensures { IfOk result (λ asked. IsMapJob (rows_of (found_of matches.now)) asked) }
{
    let robots = robots_in(matches)?;
    let cells = some_word_for(alloc, matches, "cells")?;
    let map = word_for(alloc, matches, "MAP")?;
    Ok(MapJob {
        robots,
        cells,
        prune: has_flag(matches, "prune"),
        svg: has_flag(matches, "svg"),
        mend: has_flag(matches, "mend"),
        json: has_flag(matches, "json"),
        map,
    })
}
