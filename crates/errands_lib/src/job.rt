//! The words that the program is given, and the job that they name.

ghost use Rattle.std.specs.Prelude.{◌≡◌, [], IfOk, IfErr, Some, true, map, codes, string_bytes};
ghost use Rattle.clap.specs.Words.{fault_of, first_of, found_of, rows_of, subcommand_of, subcommand_rows_of, takes};
ghost use Rattle.errands_lib.specs.Command.{errands_app};
ghost use Rattle.errands_lib.specs.Asked.{asked, job_of, is_serve, files_of, files_named};
ghost use Rattle.command_words.specs.declared.words.WordFault.TheVariants.{NoMemory};

use crate::command::command;
use clap::ArgMatches;
use command_words::{WordFault, has_flag, matches_for, word_for};
use std::alloc::{AllocError, Global};

/// What the program is to do.
#[derive(Debug, Drop)]
pub enum Job {
    /// To run the script after a map, both from standard input.
    Bundle,
    /// To say how large a map is, and whether it has a bridge.
    Map {
        file: String,
    },
    /// To run the script of the second file on the map of the first, and to write its lines, or its trace.
    Run {
        first: String,
        second: String,
        trace: bool,
    },
    /// To judge the trace of the second file on the map of the first.
    Judge {
        first: String,
        second: String,
    },
    /// To serve the script of the second file on the map of the first, and to write its trace.
    Serve {
        first: String,
        second: String,
    },
}

/// The names of the files of a job, in the order in which they are opened and read.
#[derive(Clone, Copy, Debug)]
pub enum JobFiles<'a> {
    /// None: the job reads standard input.
    None,
    One(&'a str),
    Two(&'a str, &'a str),
}

impl Job {
    /// Whether the job is to serve a script, which waits for threads.
    pub fn is_serve(&self) -> bool
        ensures { result ≡ is_serve self.now }
    {
        matches!(self, Job::Serve { .. })
    }

    /// The names of the job's files.
    pub fn files(&self) -> JobFiles<'_>
        ensures { files_named result ≡ files_of self.now }
    {
        match self {
            Job::Bundle => JobFiles::None,
            Job::Map { file } => JobFiles::One(file.as_str()),
            Job::Run {
                first,
                second,
                trace: _,
            }
            | Job::Judge { first, second }
            | Job::Serve { first, second } => JobFiles::Two(first.as_str(), second.as_str()),
        }
    }
}

/// The values of the arguments for a map and for one more file.
fn map_and(
    alloc: Global,
    matches: &ArgMatches<'_>,
    name: &str,
) -> Result<(String, String), AllocError>
    ensures first { IfOk result (λ two. first_of (codes "MAP") (rows_of (found_of matches.now)) ≡ Some (string_bytes two.0)) }
    ensures second { IfOk result (λ two. first_of name.now (rows_of (found_of matches.now)) ≡ Some (string_bytes two.1)) }
{
    let first = word_for(alloc, matches, "MAP")?;
    let second = word_for(alloc, matches, name)?;
    Ok((first, second))
}

/// The job of the words that `clap` took.
fn job_from(alloc: Global, matches: &ArgMatches<'_>) -> Result<Job, AllocError>
    ensures { IfOk result (λ job. job_of (subcommand_rows_of matches.now) ≡ Some (asked job)) }
{
    let Some((name, inner)) = matches.subcommand() else {
        return Ok(Job::Bundle);
    };
    if name == "map" {
        let file = word_for(alloc, inner, "FILE")?;
        return Ok(Job::Map { file });
    }
    if name == "judge" {
        let (first, second) = map_and(alloc, inner, "TRACE")?;
        return Ok(Job::Judge { first, second });
    }
    let (first, second) = map_and(alloc, inner, "SCRIPT")?;
    if name == "serve" {
        return Ok(Job::Serve { first, second });
    }
    let trace = has_flag(inner, "trace");
    Ok(Job::Run {
        first,
        second,
        trace,
    })
}

/// The job that the words name. The first word is the program's own name.
pub fn parse_words(alloc: Global, words: &[String]) -> Result<Job, WordFault>
    // Only words that `clap` takes name a job.
    ensures taken { IfOk result (λ job. fault_of errands_app (map (λ w. string_bytes w) words.now) ≡ []) }
    ensures job { IfOk result (λ job. job_of (subcommand_of errands_app (map (λ w. string_bytes w) words.now)) ≡ Some (asked job)) }
    // Words that `clap` takes are refused where memory ran out alone.
    ensures refused { IfErr result (λ f. takes errands_app (map (λ w. string_bytes w) words.now) ≡ true → f ≡ NoMemory) }
{
    match matches_for(alloc, &command(), words) {
        Ok(matches) => Ok(job_from(alloc, &matches)?),
        Err(fault) => Err(fault),
    }
}
