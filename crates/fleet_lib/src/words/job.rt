//! The program's command line, and the job that it names.

ghost use Rattle.std.specs.Prelude.{◌≡◌, [], IfOk, IfErr, true, map, string_bytes};
ghost use Rattle.clap.specs.Words.{fault_of, subcommand_of, subcommand_rows_of, takes};
ghost use Rattle.fleet_lib.specs.Command.{fleet_app};
ghost use Rattle.fleet_lib.specs.Asked.{IsJobOf};
ghost use Rattle.command_words.specs.declared.words.WordFault.TheVariants.{NoMemory};

use crate::words::change::{ChangeJob, change_in};
use crate::words::check::{Check, check_in};
use crate::words::convert::{Convert, convert_in};
use crate::words::execute::{Execute, execute_in};
use crate::words::explain::{Explain, explain_in};
use crate::words::judge::{Judge, judge_in};
use crate::words::live::{Live, live_in};
use crate::words::map::{MapJob, map_in};
use crate::words::program::{fleet_words, program};
use crate::words::sim::{SimJob, sim_in};
use crate::words::stats::{Stats, stats_in};
use crate::words::talk::{Talk, talk_in};
use crate::words::vehicles::{VehiclesJob, vehicles_in};
use crate::words::view::{View, view_in};
use clap::ArgMatches;
use command_words::{WordFault, matches_for};
use std::alloc::{AllocError, Global};

/// What the program has to do.
#[derive(Debug, Drop)]
pub enum Job {
    View(View),
    Check(Check),
    Talk(Talk),
    Convert(Convert),
    Explain(Explain),
    Live(Live),
    Stats(Stats),
    Judge(Judge),
    Map(MapJob),
    Execute(Execute),
    Sim(SimJob),
    Change(ChangeJob),
    Vehicles(VehiclesJob),
}

/// The job of the words that `clap` accepted.
fn job_from(alloc: Global, matches: &ArgMatches<'_>) -> Result<Job, AllocError>
    ensures { IfOk result (λ job. IsJobOf (subcommand_rows_of matches.now) job) }
{
    match matches.subcommand() {
        Some((name, inner)) => {
            if name == "view" {
                Ok(Job::View(view_in(alloc, inner)?))
            } else if name == "check" {
                Ok(Job::Check(check_in(alloc, inner)?))
            } else if name == "talk" {
                Ok(Job::Talk(talk_in(alloc, inner)?))
            } else if name == "convert" {
                Ok(Job::Convert(convert_in(alloc, inner)?))
            } else if name == "explain" {
                Ok(Job::Explain(explain_in(alloc, inner)?))
            } else if name == "live" {
                Ok(Job::Live(live_in(alloc, inner)?))
            } else if name == "stats" {
                Ok(Job::Stats(stats_in(alloc, inner)?))
            } else if name == "judge" {
                Ok(Job::Judge(judge_in(alloc, inner)?))
            } else if name == "map" {
                Ok(Job::Map(map_in(alloc, inner)?))
            } else if name == "execute" {
                Ok(Job::Execute(execute_in(alloc, inner)?))
            } else if name == "sim" {
                Ok(Job::Sim(sim_in(alloc, inner)?))
            } else if name == "change" {
                Ok(Job::Change(change_in(alloc, inner)?))
            } else if name == "vehicles" {
                Ok(Job::Vehicles(vehicles_in(alloc, inner)?))
            } else {
                // `clap` takes no other word, so this never runs
                Err(AllocError)
            }
        }
        // `clap` takes no words without one of these, so this never runs
        None => Err(AllocError),
    }
}

/// The job that the words name. The first word is the program's own name.
pub fn parse_words(alloc: Global, words: &[String]) -> Result<Job, WordFault>
    // only words that `clap` takes name a job
    ensures taken { IfOk result (λ job. fault_of fleet_app (map (λ w. string_bytes w) words.now) ≡ []) }
    ensures job { IfOk result (λ job. IsJobOf (subcommand_of fleet_app (map (λ w. string_bytes w) words.now)) job) }
    // words that `clap` takes are refused only where memory runs out
    ensures refused { IfErr result (λ f. takes fleet_app (map (λ w. string_bytes w) words.now) ≡ true → f ≡ NoMemory) }
{
    let known = fleet_words();
    match matches_for(alloc, &program(&known), words) {
        Ok(matches) => Ok(job_from(alloc, &matches)?),
        Err(fault) => Err(fault),
    }
}
