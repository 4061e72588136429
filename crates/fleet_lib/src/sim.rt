//! The word `sim`.

ghost use Rattle.std.specs.Prelude.{◌≡◌, ◌≤◌, ◌<◌, ◌^◌, IfOk, IfSome};
ghost use Rattle.fleet_lib.specs.Sim.{IsSimPlan, sim_word_status};

use crate::planner::manner_in;
use crate::words::SimJob;
use fleet_map::text::number_up_to;
use fleet_sim::{TableForm, Ties};
use fleet_talk::Manner;
use fleet_text::write_whole;
use std::alloc::{AllocError, Global};
use std::io::Write;

/// No run has more ticks, with those before the ones that are counted.
const MOST_TICKS: u64 = 1_000_000;

/// No experiment has more runs for each number of robots.
const MOST_SEEDS: u64 = 1_000;

/// What is wrong with the words of `sim`.
#[derive(Clone, Copy, Debug, PartialEq, Eq)]
pub enum SimWordFault {
    /// `--robots` with no list of numbers from 1 to 512.
    Robots,
    /// `--ticks` with no number from 1 to 1,000,000.
    Ticks,
    /// `--warm-up` with no number up to 1,000,000.
    WarmUp,
    /// `--seeds` with no number from 1 to 1,000.
    Seeds,
    /// More than one of `--cells`, `--scen` and `--tasks`.
    Sources,
    /// `--planner` with a word that names no planner.
    Planner,
    /// `--ties` with a word that names none.
    Ties,
    /// Both `--csv` and `--json`.
    Form,
    /// Memory ran out.
    NoMemory,
}

impl From<AllocError> for SimWordFault {
    ghost use Rattle.std.specs.Prelude.{◌≡◌};
    ghost use Rattle.fleet_lib.specs.declared.sim.SimWordFault.TheVariants.{NoMemory};

    ghost from_gives = { λ _ e. e ≡ NoMemory };

    fn from(_error: AllocError) -> SimWordFault {
        SimWordFault::NoMemory
    }
}

/// What experiments are run.
#[derive(Debug, Drop)]
pub struct SimPlan {
    /// The numbers of robots.
    pub robots: Vec<u32>,
    pub ticks: u32,
    pub warm_up: u32,
    pub seeds: u32,
    pub manner: Manner,
    pub ties: Ties,
    pub form: TableForm,
}

/// The number that a word says, if it is in this range.
fn number_in(word: &[u8], least: u64, most: u64) -> Option<u32>
    requires { most < 2 ^ 31 }
    ensures { IfSome result (λ n. (least ≤ n) × (n ≤ most)) }
{
    let number = number_up_to(word, most + 1)?;
    if least <= number && number <= most {
        Some(number as u32)
    } else {
        None
    }
}

/// The number of ticks of a word; `None` if there is no word, or it says none.
fn ticks_in(word: &Option<String>) -> Option<u32>
    ensures { IfSome result (λ n. (1 ≤ n) × (n ≤ 1000000)) }
{
    match word {
        Some(word) => number_in(word.as_bytes(), 1, MOST_TICKS),
        None => None,
    }
}

/// The number of a word, or the least if there is no word; `None` if the word says none in this range.
fn number_or(word: &Option<String>, least: u32, most: u64) -> Option<u32>
    requires few { most < 2 ^ 31 }
    requires least { least ≤ most }
    ensures { IfSome result (λ n. (least ≤ n) × (n ≤ most)) }
{
    match word {
        Some(word) => number_in(word.as_bytes(), u64::from(least), most),
        None => Some(least),
    }
}

/// Adds a number.
fn add(numbers: &mut Vec<u32>, number: u32) -> Result<(), AllocError> {
    numbers.push(number)?;
    Ok(())
}

/// The numbers of robots of a word.
fn robots_in(alloc: Global, word: &[u8]) -> Result<Vec<u32>, SimWordFault> {
    let mut robots = Vec::new(alloc);
    for part in word.split(|byte| *byte == b',') {
        match number_in(part, 1, 512) {
            Some(count) => add(&mut robots, count)?,
            None => return Err(SimWordFault::Robots),
        }
    }
    Ok(robots)
}

/// How many sources of errands the words name.
fn source_count(asked: &SimJob) -> u8 {
    u8::from(asked.cells.is_some())
        + u8::from(asked.scenario.is_some())
        + u8::from(asked.tasks.is_some())
}

/// The ties of a word, and plain ones without a word; `None` if it names none.
fn ties_in(word: &Option<String>) -> Option<Ties> {
    match word {
        None => Some(Ties::Plain),
        Some(word) => Ties::named(word.as_str()),
    }
}

/// The form of the table; `None` if two are asked for.
fn form_in(csv: bool, json: bool) -> Option<TableForm> {
    match (csv, json) {
        (false, false) => Some(TableForm::Lines),
        (true, false) => Some(TableForm::Csv),
        (false, true) => Some(TableForm::Json),
        (true, true) => None,
    }
}

/// The experiments that the words ask for. Refused in this order: the numbers of robots, of ticks, of ticks before them, of
/// seeds, two sources of errands, the planner, the ties, two forms; memory may run out in between.
pub fn sim_plan(alloc: Global, asked: &SimJob) -> Result<SimPlan, SimWordFault>
    ensures { IfOk result IsSimPlan }
{
    let word = match &asked.robots {
        Some(word) => word.as_bytes(),
        None => b"",
    };
    let robots = robots_in(alloc, word)?;
    let Some(ticks) = ticks_in(&asked.ticks) else {
        return Err(SimWordFault::Ticks);
    };
    let Some(warm_up) = number_or(&asked.warm_up, 0, MOST_TICKS) else {
        return Err(SimWordFault::WarmUp);
    };
    let Some(seeds) = number_or(&asked.seeds, 1, MOST_SEEDS) else {
        return Err(SimWordFault::Seeds);
    };
    if source_count(asked) > 1 {
        return Err(SimWordFault::Sources);
    }
    let Some(manner) = manner_in(&asked.planner) else {
        return Err(SimWordFault::Planner);
    };
    let Some(ties) = ties_in(&asked.ties) else {
        return Err(SimWordFault::Ties);
    };
    let Some(form) = form_in(asked.csv, asked.json) else {
        return Err(SimWordFault::Form);
    };
    Ok(SimPlan {
        robots,
        ticks,
        warm_up,
        seeds,
        manner,
        ties,
        form,
    })
}

/// The status of words that are wrong.
fn word_status(fault: SimWordFault) -> u8
    ensures { result ≡ sim_word_status fault }
{
    match fault {
        SimWordFault::Robots => 2,
        SimWordFault::Ticks => 2,
        SimWordFault::WarmUp => 2,
        SimWordFault::Seeds => 2,
        SimWordFault::Sources => 2,
        SimWordFault::Planner => 2,
        SimWordFault::Ties => 2,
        SimWordFault::Form => 2,
        SimWordFault::NoMemory => 7,
    }
}

/// Prints what is wrong with the words. Returns the status.
pub fn complain_of_sim<E: Write>(fault: SimWordFault, error: &mut E) -> u8
    ensures { result ≡ sim_word_status fault }
{
    let text = match fault {
        SimWordFault::Robots => {
            "error: '--robots <LIST>' has to be given, as 64,128: numbers from 1 to 512\n"
        }
        SimWordFault::Ticks => "error: '--ticks <N>' has to be given, and is from 1 to 1000000\n",
        SimWordFault::WarmUp => "error: invalid value for '--warm-up <N>'\n",
        SimWordFault::Seeds => "error: '--seeds <N>' is from 1 to 1000\n",
        SimWordFault::Sources => {
            "error: '--cells', '--scen' and '--tasks' go without each other\n"
        }
        SimWordFault::Planner => "error: invalid value for '--planner <NAME>'\n",
        SimWordFault::Ties => "error: invalid value for '--ties <NAME>'\n",
        SimWordFault::Form => "error: '--csv' and '--json' go without each other\n",
        SimWordFault::NoMemory => "fleet: memory\n",
    };
    write_whole(error, text.as_bytes());
    word_status(fault)
}
