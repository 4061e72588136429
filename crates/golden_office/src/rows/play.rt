//! A case, call by call.

ghost use Rattle.std.specs.Prelude.{◌≡◌};
ghost use Rattle.fleet_core.specs.Hooks.{laws_of};
ghost use Rattle.fleet_office.specs.Views.{IsNamed, world_at};

use crate::rows::calls::{tell_answer, tell_chapter, tell_look};
use crate::rows::case::{Case, Step};
use crate::rows::hall::play_hall;
use crate::rows::plan::{Call, Plan};
use crate::rows::stage::{Fleet, Stage, concluded, opened};
use fleet_core::OpenFault;
use fleet_office::{ConcludeFault, Desk, Final, OfficeName};
use std::alloc::{Alloc, AllocError, Allocator};
use std::fmt::Write;
use std::mem;
use std::sync::Wait;
use std::thread::Threads;

/// Prints how an office ended: its ticks, its floor cells and its chapter, and by client what it had not collected.
fn tell_end<A: Allocator + Copy>(end: &Final<A>, told: &mut String) -> Result<(), AllocError> {
    write!(told, "tick {} floor {} ", end.tick, end.grid.floor_count())?;
    tell_chapter(&end.chapter, told)?;
    for (client, notices) in end.rest.iter().enumerate() {
        let notices = notices.as_slice();
        write!(told, "\nrest {client}: {notices:?}")?;
    }
    Ok(())
}

/// Prints the result of an end.
fn tell_ended<A: Allocator + Copy>(
    ended: Result<Final<A>, ConcludeFault>,
    told: &mut String,
) -> Result<(), AllocError> {
    match ended {
        Ok(end) => {
            let done = tell_end(&end, told);
            mem::drop(end);
            done
        }
        Err(fault) => write!(told, "{fault:?}"),
    }
}

/// Makes a call, and prints its result, and where it may change an office what a look shows then.
fn play_step<
    N: OfficeName<A>,
    A: Allocator + Copy + Send + Sync,
    R: Alloc<A = A> + Threads + Sync + Wait,
>(
    rt: &R,
    stage: &mut Stage<N, A>,
    step: &Step,
    call: Call,
    plan: Plan<'_>,
    told: &mut String,
) -> Result<(), AllocError> {
    if let Step::Conclude(clients, tickers) = *step {
        let ended = concluded(rt.alloc(), stage, (clients, tickers), call, plan)?;
        return tell_ended(ended, told);
    }
    let Some(office) = &stage.office else {
        return Ok(());
    };
    plan.begin(call);
    let answered = tell_answer(
        rt,
        office,
        &mut stage.guests,
        &mut stage.tickers,
        step,
        told,
    );
    plan.end();
    answered?;
    if step.is_seen() {
        told.push_str("; ")?;
        tell_look(rt, office, &stage.tickers, 0, told)?;
    }
    Ok(())
}

/// Makes these calls, to the end of them or of the office.
fn play_steps<
    N: OfficeName<A>,
    A: Allocator + Copy + Send + Sync,
    R: Alloc<A = A> + Threads + Sync + Wait,
>(
    rt: &R,
    stage: &mut Stage<N, A>,
    steps: &[Step],
    plan: Plan<'_>,
    told: &mut String,
) -> Result<(), AllocError> {
    for (number, step) in steps.iter().enumerate() {
        if stage.office.is_none() {
            break;
        }
        write!(told, "{step:?}: ")?;
        play_step(rt, stage, step, Call::Step(number), plan, told)?;
        told.push_str("\n")?;
    }
    Ok(())
}

/// Makes the calls of a case.
fn play_case<
    N: OfficeName<A>,
    A: Allocator + Copy + Send + Sync,
    R: Alloc<A = A> + Threads + Sync + Wait,
>(
    rt: &R,
    stage: &mut Stage<N, A>,
    case: &Case<'_>,
    plan: Plan<'_>,
    told: &mut String,
) -> Result<(), AllocError> {
    for _round in 0..case.rounds {
        play_steps(rt, stage, case.round, plan, told)?;
    }
    play_steps(rt, stage, case.steps, plan, told)
}

/// Opens an office over the desk, or a hall, and makes the calls of a case.
pub(crate) fn play<
    N: OfficeName<A>,
    A: Allocator + Copy + Send + Sync,
    R: Alloc<A = A> + Threads + Sync + Wait,
>(
    rt: &R,
    desk: Desk<A>,
    fleet: Fleet<A>,
    case: &Case<'_>,
    plan: Plan<'_>,
    told: &mut String,
) -> Result<Result<(), OpenFault>, AllocError>
    requires named { IsNamed desk N.name N.parts N.rings }
    requires start { N.start ≡ world_at desk fleet.grid fleet.starts.items (laws_of fleet.hooks) }
{
    if !case.hall.is_empty() {
        return play_hall::<N, A, R>(rt, desk, fleet, case.hall, told);
    }
    match opened::<N, A>(rt.alloc(), desk, fleet, plan)? {
        Ok(mut stage) => {
            let played = play_case(rt, &mut stage, case, plan, told);
            mem::drop(stage);
            Ok(Ok(played?))
        }
        Err(fault) => Ok(Err(fault)),
    }
}
