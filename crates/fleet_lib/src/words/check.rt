//! The word `check`.

ghost use Rattle.std.specs.Prelude.{◌≡◌, IfOk};
ghost use Rattle.clap.specs.Words.{found_of, rows_of};
ghost use Rattle.fleet_lib.specs.Asked.{IsCheck, IsCountAsked, form_in, form_named};

use crate::words::arguments::{FORM, MAP};
use clap::ArgMatches;
use command_words::{Argument, Kind, Word, has_flag, some_word_for, word_for};
use fleet_plans::TextForm;
use std::alloc::{AllocError, Global};

/// In which form a plan is read.
#[derive(Clone, Copy, Debug, PartialEq, Eq)]
pub enum FormAsked {
    /// In the form of its text.
    Found,
    /// In this one.
    Named(TextForm),
    /// In none: the word is not the name of a form.
    Unknown,
}

/// To judge a plan on a map.
#[derive(Debug, Drop)]
pub struct Check {
    /// Whether each robot has to end on its goal.
    pub strict: bool,
    pub form: FormAsked,
    /// A scenario with the robots' starts and goals.
    pub goals: Option<String>,
    /// Whether each conflict is printed, not the first alone.
    pub all: bool,
    /// How many robots the plan has to have.
    pub agents: Option<u32>,
    pub map: String,
    pub plan: String,
}

/// `check [--strict] [--all] [--form FORM] [--goals SCENARIO] [--agents N] MAP PLAN`.
pub(crate) const CHECK: Word<'static> = Word {
    name: "check",
    about: "Judges a plan on a map: whether it is free of conflicts, and what it costs",
    example: "Example: fleet check arena.map plan.txt",
    arguments: &[
        Argument {
            name: "strict",
            kind: Kind::Flag,
            help: "Call a plan valid only if each robot ends on its goal",
        },
        Argument {
            name: "all",
            kind: Kind::Flag,
            help: "Print each conflict, a line for each",
        },
        FORM,
        Argument {
            name: "goals",
            kind: Kind::Value("SCENARIO"),
            help: "Call a plan valid only if its robots begin and end as this scenario (.scen) says",
        },
        Argument {
            name: "agents",
            kind: Kind::Number("N"),
            help: "Call a plan valid only if it has N robots",
        },
        MAP,
        Argument {
            name: "PLAN",
            kind: Kind::File,
            help: "A plan",
        },
    ],
};

/// The form with a given name.
fn form_named(name: &str) -> FormAsked
    ensures { result ≡ form_named name.now }
{
    if name == "lines" {
        FormAsked::Named(TextForm::Headed)
    } else if name == "bare" {
        FormAsked::Named(TextForm::Bare)
    } else if name == "agents" {
        FormAsked::Named(TextForm::Agents)
    } else if name == "table" {
        FormAsked::Named(TextForm::Table)
    } else if name == "yaml" {
        FormAsked::Named(TextForm::Schedule)
    } else if name == "lorr" {
        FormAsked::Named(TextForm::Json)
    } else if name == "lorr-planner" {
        FormAsked::Named(TextForm::PlannerJson)
    } else {
        FormAsked::Unknown
    }
}

/// The form that the words name.
pub(crate) fn form_in(matches: &ArgMatches<'_>) -> FormAsked
    ensures { result ≡ form_in (rows_of (found_of matches.now)) }
{
    match matches.get_str("form") {
        Some(word) => form_named(word),
        None => FormAsked::Found,
    }
}

/// How many robots the words ask for.
fn agents_in(matches: &ArgMatches<'_>) -> Result<Option<u32>, AllocError>
    ensures { IfOk result (IsCountAsked (rows_of (found_of matches.now))) }
{
    match matches.get_str("agents") {
        Some(word) => match word.parse::<u32>() {
            Ok(count) => Ok(Some(count)),
            // `clap` took it for a number of this range, so this never runs
            Err(_) => Err(AllocError),
        },
        None => Ok(None),
    }
}

/// What the arguments of `check` ask for.
pub(crate) fn check_in(alloc: Global, matches: &ArgMatches<'_>) -> Result<Check, AllocError>
    ensures { IfOk result (λ check. IsCheck (rows_of (found_of matches.now)) check) }
{
    let goals = some_word_for(alloc, matches, "goals")?;
    let agents = agents_in(matches)?;
    let map = word_for(alloc, matches, "MAP")?;
    let plan = word_for(alloc, matches, "PLAN")?;
    Ok(Check {
        strict: has_flag(matches, "strict"),
        all: has_flag(matches, "all"),
        form: form_in(matches),
        goals,
        agents,
        map,
        plan,
    })
}
