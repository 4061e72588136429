//! The word `sim`.

ghost use Rattle.std.specs.Prelude.{◌≤◌, vec_len};

use crate::chapters::keep_chapter;
use crate::ends::{FileFault, complain};
use crate::sim_texts::{SimTexts, sources, texts_of};
use fleet_hooks::{ArrivalHook, Farewell, Hooks, TieHook, TieLaw, TieView};
use fleet_lib::{
    InputFault, Played, Said, SimJob, SimPlan, SimRun, SimTrouble, answer_sim, answer_trouble,
    complain_of_sim, end_sim, fail, open_sim, sim_plan, tell, trace_line, trouble_of,
};
use fleet_sim::{Line, Run, Sim, SimFault, Ties, Times, line_of, random_rank};
use fleet_stats::ranked;
use std::alloc::{Alloc, AllocError, Global};
use std::fs::Files;
use std::io::{ErrorKind, Write};
use std::time::{Clock, Instant};

/// Why there is no table.
#[derive(Clone, Copy)]
enum Failure<'a> {
    Trouble(SimTrouble),
    File(FileFault<'a>),
}

impl<'a> From<AllocError> for Failure<'a> {
    fn from(_error: AllocError) -> Failure<'a> {
        Failure::Trouble(SimTrouble::NoMemory)
    }
}

/// What was measured of the steps of a run.
#[derive(Drop)]
struct Measured {
    steps: Vec<u64>,
    planning: u64,
}

/// Adds an item.
fn add<T: Drop>(items: &mut Vec<T>, item: T) -> Result<(), AllocError> {
    items.push(item)?;
    Ok(())
}

/// A time, if times are asked for and the clock tells it.
fn now<R: Clock>(rt: &R, timed: bool) -> Option<Instant> {
    if timed { Instant::now(rt).ok() } else { None }
}

/// The nanoseconds between two times; 0 if one is not known.
fn nanos_between(from: Option<Instant>, to: Option<Instant>) -> u64 {
    match (from, to) {
        (Some(from), Some(to)) => {
            let nanos = to.duration_since(from).as_nanos();
            nanos.min(18_446_744_073_709_551_615) as u64
        }
        _ => 0,
    }
}

/// Makes one step: a tick, and the next errands of those that arrived. Returns the nanoseconds of both together, and
/// those of the tick.
fn step<R: Alloc<A = Global> + Clock>(
    rt: &R,
    sim: &mut Sim,
    timed: bool,
) -> Result<(u64, u64), SimFault> {
    let start = now(rt, timed);
    sim.tick(rt)?;
    let ticked = now(rt, timed);
    sim.order()?;
    let end = now(rt, timed);
    Ok((nanos_between(start, end), nanos_between(start, ticked)))
}

/// Makes the steps of a run, and measures those that are counted.
fn play<R: Alloc<A = Global> + Clock>(
    rt: &R,
    sim: &mut Sim,
    plan: &SimPlan,
    timed: bool,
) -> Result<Measured, SimFault> {
    let mut steps = Vec::new(rt.alloc());
    let mut planning = 0u64;
    sim.begin()?;
    for _ in 0..plan.warm_up {
        let _untold = step(rt, sim, false)?;
    }
    for _ in 0..plan.ticks {
        let (all, tick) = step(rt, sim, timed)?;
        add(&mut steps, all)?;
        planning = planning.saturating_add(tick);
    }
    Ok(Measured { steps, planning })
}

/// The times of steps, if they are told.
fn times_of(measured: Measured, timed: bool) -> Option<Times> {
    let Measured { steps, planning } = measured;
    if timed {
        Some(Times {
            steps: ranked(steps),
            planning,
        })
    } else {
        None
    }
}

/// Makes a run with these hooks: opens it, plays it, and ends it.
fn hooked_run<R: Alloc<A = Global> + Clock>(
    rt: &R,
    texts: &SimTexts,
    plan: &SimPlan,
    run: SimRun,
    timed: bool,
    hooks: Hooks,
) -> Result<(Played, Option<Times>), SimTrouble>
    // Of each call: only a call with a condition may hand on closures.
    requires { 0 ≤ vec_len hooks.ties }
{
    let alloc = rt.alloc();
    let mut sim = open_sim(alloc, &texts.map, sources(texts), run, hooks)?;
    let measured = play(rt, &mut sim, plan, timed);
    let played = end_sim(alloc, sim, u64::from(plan.warm_up));
    match measured {
        Ok(measured) => Ok((played?, times_of(measured, timed))),
        Err(fault) => Err(trouble_of(run.robots, fault)),
    }
}

/// Makes a run whose ties are decided by the direction.
fn plain_run<R: Alloc<A = Global> + Clock>(
    rt: &R,
    texts: &SimTexts,
    plan: &SimPlan,
    run: SimRun,
    timed: bool,
) -> Result<(Played, Option<Times>), SimTrouble> {
    let (tie, arrival) = (TieHook::fixed([0; 4]), ArrivalHook::fixed(0));
    let robots = run.robots as usize;
    let hooks = Hooks::alike(rt.alloc(), robots, tie, arrival, Farewell::fixed(0))?;
    hooked_run(rt, texts, plan, run, timed, hooks)
}

/// Makes a run whose ties are decided by random ranks.
fn random_run<R: Alloc<A = Global> + Clock>(
    rt: &R,
    texts: &SimTexts,
    plan: &SimPlan,
    run: SimRun,
    timed: bool,
) -> Result<(Played, Option<Times>), SimTrouble> {
    let (alloc, seed) = (rt.alloc(), run.seed);
    let mut hooks = Hooks::new(alloc);
    for _ in 0..run.robots {
        let Ok(rank) = Box::new(alloc, move |view: TieView| random_rank(seed, view)) else {
            return Err(SimTrouble::NoMemory);
        };
        let tie = TieHook::new(TieLaw::ANY, rank);
        hooks.push(tie, ArrivalHook::fixed(0), Farewell::fixed(0))?;
    }
    hooked_run(rt, texts, plan, run, timed, hooks)
}

/// Makes a run.
fn run_of<R: Alloc<A = Global> + Clock>(
    rt: &R,
    texts: &SimTexts,
    plan: &SimPlan,
    run: SimRun,
    timed: bool,
) -> Result<(Played, Option<Times>), SimTrouble> {
    match plan.ties {
        Ties::Plain => plain_run(rt, texts, plan, run, timed),
        Ties::Random => random_run(rt, texts, plan, run, timed),
    }
}

/// Keeps the trace of a run, if a folder is named.
fn keep<'a, R: Files + Alloc<A = Global>>(
    rt: &R,
    folder: &'a Option<String>,
    played: &Played,
) -> Result<(), Failure<'a>> {
    let (Some(folder), Some(chapter)) = (folder, played.ended.chapters.first()) else {
        return Ok(());
    };
    let text = trace_line(rt.alloc(), chapter)?;
    match keep_chapter(rt, folder.as_str(), 0, text.as_bytes()) {
        Ok(()) => Ok(()),
        Err(why) if why.kind() == ErrorKind::OutOfMemory => {
            Err(Failure::Trouble(SimTrouble::NoMemory))
        }
        Err(_) => Err(Failure::File(FileFault::Unwritable(folder.as_str()))),
    }
}

/// Makes the runs of one number of robots. The trace of the first is kept, if it is asked for.
fn line_for<'a, R: Files + Alloc<A = Global> + Clock>(
    rt: &R,
    (asked, plan): (&'a SimJob, &SimPlan),
    texts: &SimTexts,
    robots: u32,
    is_first: bool,
) -> Result<Line, Failure<'a>> {
    let mut runs = Vec::new(rt.alloc());
    for seed in 1..plan.seeds.saturating_add(1) {
        let run = SimRun {
            robots,
            seed: u64::from(seed),
            manner: plan.manner,
            roomy: asked.roomy,
        };
        match run_of(rt, texts, plan, run, asked.times) {
            Ok((played, times)) => {
                if is_first && seed == 1 {
                    keep(rt, &asked.traces, &played)?;
                }
                let figures = played.figures;
                add(&mut runs, Run { figures, times })?;
            }
            Err(trouble) => return Err(Failure::Trouble(trouble)),
        }
    }
    Ok(line_of(rt.alloc(), robots, &runs, asked.times)?)
}

/// Makes all runs, and returns their table.
fn table_of<'a, R: Files + Alloc<A = Global> + Clock>(
    rt: &R,
    asked: &'a SimJob,
    plan: &SimPlan,
) -> Result<Said, Failure<'a>> {
    let texts = match texts_of(rt, asked) {
        Ok(texts) => texts,
        Err(fault) => return Err(Failure::File(fault)),
    };
    let mut lines = Vec::new(rt.alloc());
    for (place, robots) in plan.robots.iter().enumerate() {
        let line = line_for(rt, (asked, plan), &texts, *robots, place == 0)?;
        add(&mut lines, line)?;
    }
    Ok(answer_sim(rt.alloc(), plan.form, &lines, asked.times)?)
}

/// Prints a table of experiments. Returns the status: 0 good, 2 words that ask for none, 3 a file failed, 4 the map or 5
/// the list of cells, the scenario or the list of tasks is refused, 6 a run that does not go on, 7 memory ran out.
pub(crate) fn run_sim<R: Files + Alloc<A = Global> + Clock, W: Write, E: Write>(
    rt: &R,
    asked: &SimJob,
    output: &mut W,
    error: &mut E,
) -> u8 {
    let plan = match sim_plan(rt.alloc(), asked) {
        Ok(plan) => plan,
        Err(fault) => return complain_of_sim(fault, error),
    };
    match table_of(rt, asked, &plan) {
        Ok(said) => tell(&said, output, error),
        Err(Failure::File(fault)) => complain(rt, fault, error),
        Err(Failure::Trouble(trouble)) => match answer_trouble(rt.alloc(), trouble) {
            Ok(said) => tell(&said, output, error),
            Err(AllocError) => fail(InputFault::NoMemory, error),
        },
    }
}
