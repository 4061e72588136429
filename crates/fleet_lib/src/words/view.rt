//! The word `view`.

ghost use Rattle.std.specs.Prelude.{◌≡◌, IfOk};
ghost use Rattle.clap.specs.Words.{found_of, rows_of};
ghost use Rattle.fleet_lib.specs.Asked.{IsShownAs, IsView};

use crate::words::arguments::MAP;
use clap::ArgMatches;
use command_words::{Argument, Kind, Word, has_flag, word_for, words_for};
use std::alloc::{AllocError, Global};

/// How traces are shown.
#[derive(Clone, Copy, Debug, PartialEq, Eq)]
pub enum Shown {
    /// As a page that replays them.
    Page,
    /// As a picture that moves.
    Moving,
    /// As a picture of the fleet after this number of ticks.
    Still(u32),
}

/// To show traces on a map.
#[derive(Debug, Drop)]
pub struct View {
    pub map: String,
    /// One or more, in their order.
    pub traces: Vec<String>,
    pub shown: Shown,
}

/// `view [--svg] [--tick N] MAP TRACE..`.
pub(crate) const VIEW: Word<'static> = Word {
    name: "view",
    about: "Prints a page that replays traces on a map, or a picture of them",
    example: "Example: fleet view ring.map two_robots.trace > fleet.html",
    arguments: &[
        Argument {
            name: "svg",
            kind: Kind::Flag,
            help: "Print a moving picture (SVG) in place of the page",
        },
        Argument {
            name: "tick",
            kind: Kind::Number("N"),
            help: "Print a picture of what stands after N ticks",
        },
        MAP,
        Argument {
            name: "TRACE",
            kind: Kind::Files,
            help: "Traces, chapters in order; a plan or a log of `execute`; or two of these",
        },
    ],
};

/// How traces are to be shown.
fn shown_in(matches: &ArgMatches<'_>) -> Result<Shown, AllocError>
    ensures { IfOk result (λ shown. IsShownAs (rows_of (found_of matches.now)) shown) }
{
    match matches.get_str("tick") {
        Some(word) => match word.parse::<u32>() {
            Ok(tick) => Ok(Shown::Still(tick)),
            // `clap` took it for a number of this range, so this never runs
            Err(_) => Err(AllocError),
        },
        None => {
            if has_flag(matches, "svg") {
                Ok(Shown::Moving)
            } else {
                Ok(Shown::Page)
            }
        }
    }
}

/// What the arguments of `view` ask for.
pub(crate) fn view_in(alloc: Global, matches: &ArgMatches<'_>) -> Result<View, AllocError>
    ensures { IfOk result (λ view. IsView (rows_of (found_of matches.now)) view) }
{
    let map = word_for(alloc, matches, "MAP")?;
    let traces = words_for(alloc, matches, "TRACE")?;
    let shown = shown_in(matches)?;
    Ok(View { map, traces, shown })
}
