//! The word `convert`.

ghost use Rattle.std.specs.Prelude.{◌≡◌, IfOk};
ghost use Rattle.clap.specs.Words.{found_of, rows_of};
ghost use Rattle.fleet_lib.specs.Asked.{IsConvert, target_in, target_named};

use crate::words::arguments::MAP;
use clap::ArgMatches;
use command_words::{Argument, Kind, Word, word_for};
use fleet_convert::{Listing, PlanForm};
use std::alloc::{AllocError, Global};

/// What a trace or a plan is turned into.
#[derive(Clone, Copy, Debug, PartialEq, Eq)]
pub enum Target {
    /// A trace becomes a plan in this form.
    Plan(PlanForm),
    /// A plan becomes a trace.
    Trace,
}

/// To write a trace on a map as a plan, or a plan as a trace.
#[derive(Debug, Drop)]
pub struct Convert {
    /// `None` if the word is not the name of a form.
    pub target: Option<Target>,
    pub map: String,
    /// The trace or the plan.
    pub input: String,
}

/// `convert --to FORM MAP INPUT`.
pub(crate) const CONVERT: Word<'static> = Word {
    name: "convert",
    about: "Prints a trace as a plan of other planners, or a plan as a trace",
    example: "Example: fleet convert --to pibt2 ring.map two_robots.trace > plan.txt",
    arguments: &[
        Argument {
            name: "to",
            kind: Kind::RequiredValue("FORM"),
            help: "pibt2 (cells), moves (letters), lorr (JSON), agents (CBS), table (CSV), yaml, or trace",
        },
        MAP,
        Argument {
            name: "INPUT",
            kind: Kind::File,
            help: "A trace, or with `--to trace` a plan",
        },
    ],
};

/// The target with a given name.
fn target_named(name: &str) -> Option<Target>
    ensures { result ≡ target_named name.now }
{
    if name == "pibt2" {
        Some(Target::Plan(PlanForm::Pibt2))
    } else if name == "moves" {
        Some(Target::Plan(PlanForm::Moves))
    } else if name == "lorr" {
        Some(Target::Plan(PlanForm::Runners))
    } else if name == "agents" {
        Some(Target::Plan(PlanForm::Listed(Listing::Agents)))
    } else if name == "table" {
        Some(Target::Plan(PlanForm::Listed(Listing::Table)))
    } else if name == "yaml" {
        Some(Target::Plan(PlanForm::Listed(Listing::Schedule)))
    } else if name == "trace" {
        Some(Target::Trace)
    } else {
        None
    }
}

/// The target that the words name.
fn target_in(matches: &ArgMatches<'_>) -> Option<Target>
    ensures { result ≡ target_in (rows_of (found_of matches.now)) }
{
    match matches.get_str("to") {
        Some(word) => target_named(word),
        None => None,
    }
}

/// What the arguments of `convert` ask for.
pub(crate) fn convert_in(alloc: Global, matches: &ArgMatches<'_>) -> Result<Convert, AllocError>
    ensures { IfOk result (λ convert. IsConvert (rows_of (found_of matches.now)) convert) }
{
    let target = target_in(matches);
    let map = word_for(alloc, matches, "MAP")?;
    let input = word_for(alloc, matches, "INPUT")?;
    Ok(Convert { target, map, input })
}
