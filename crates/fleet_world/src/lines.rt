//! The run of a script's event lines, each as often as it says.

ghost use Rattle.std.specs.Prelude.{◌≡◌, ◌<◌, ◌≤◌, ◌^◌, ◌++◌, ◌∷◌, ◌↔◌, ℕ, [], Err, IfOk, IfErr, OnOk, IsTrue, length, replicate};
ghost use Rattle.fleet_script.specs.Runs.{unrolled};
ghost use Rattle.fleet_core.specs.Hooks.{laws_of, AreOrderly};
ghost use Rattle.fleet_core.specs.Opening.{CanOpen};
ghost use Rattle.fleet_core.specs.OpeningFaults.{IsRefused, IsNamed};
ghost use Rattle.fleet_world.specs.Answers.{events_in, replies_in};
ghost use Rattle.fleet_world.specs.Keeps.{talk};
ghost use Rattle.fleet_world.specs.Run.{IsAtEvent, opened_state};
ghost use Rattle.fleet_world.specs.Played.{IsPlayed};
ghost use Rattle.fleet_world.specs.Talk.{Talk, opened_talk};
ghost use Rattle.fleet_world.specs.inside.Shown.{LeadsTo};

use crate::answered::Answered;
use crate::faults::RunFault;
use crate::reply::Reply;
use crate::session::Session;
use fleet_book::{Event, Limits};
use fleet_core::World;
use fleet_grid::Grid;
use fleet_hooks::Hooks;
use fleet_script::Run;
use std::alloc::{Alloc, AllocError, Allocator, Global};

/// What is left after a run of event lines.
#[derive(Drop)]
pub struct PlayedLines<A: Allocator + Copy = Global> {
    pub world: World<A>,
    /// The events with their replies, in order.
    pub answers: Vec<Answered, A>,
}

/// Does what the event lines of a script say, one line after another, from the opening of a world, as `run` does with
/// a list of their events. It takes memory for the entries of the chapter and for changes of reply: a line whose event
/// is refused many times takes no more than one.
///
/// Refused as `run`; `NoMemory` names the line's place in `runs`. The `requires` is met by each call; without it no
/// call could hand closures to another crate.
pub fn run_lines<A: Allocator + Copy, R: Alloc<A = A>>(
    rt: &R,
    grid: Grid<A>,
    starts: Vec<u32, A>,
    clients: u32,
    limits: Limits,
    hooks: Hooks<A>,
    runs: &[Run],
) -> Result<PlayedLines<A>, RunFault>
    requires { clients < 2 ^ 32 }
    ensures refused { (fault : _) → IsNamed fault → ((result ≡ Err (RunFault.Opening fault)) ↔ IsRefused grid starts.items clients limits (laws_of hooks) fault) }
    ensures memory { (i : ℕ) → result ≡ Err (RunFault.NoMemory i) → i < length runs.now }
    ensures events { IfOk result (λ p. events_in p.answers.items ≡ unrolled runs.now) }
    ensures played { IfOk result (λ p. IsPlayed (opened_state grid starts.items clients limits (laws_of hooks)) (unrolled runs.now) (replies_in p.answers.items) p.world.core) }
{
    let mut session = match Session::open(rt.alloc(), grid, starts, clients, limits, hooks) {
        Ok(session) => session,
        Err(fault) => return Err(RunFault::Opening(fault)),
    };
    match play_lines(rt, &mut session, runs) {
        Ok(answers) => Ok(PlayedLines {
            world: world_of(session),
            answers,
        }),
        Err(fault) => {
            abandon(session);
            Err(fault)
        }
    }
}

/// The world of a session that has ended.
fn world_of<A: Allocator + Copy>(session: Session<A>) -> World<A>
    requires { 0 ≤ session.world.core.number }
    ensures { result.core ≡ session.world.core }
{
    let Session { world, waiting: _ } = session;
    world
}

/// Ends a session by a call of its own. A drop that goes unsaid would be proved again here, for each type in it.
fn abandon<A: Allocator + Copy>(session: Session<A>) {
    let _left = session.finish();
}

/// Does what lines say, one after another. Out of memory ends it, and names the line by its place.
fn play_lines<A: Allocator + Copy, R: Alloc<A = A>>(
    rt: &R,
    session: &mut Session<A>,
    runs: &[Run],
) -> Result<Vec<Answered, A>, RunFault>
    ensures leads { IfOk result (λ answers. LeadsTo (talk session.old) (events_in answers.items) (replies_in answers.items) (talk session.new)) }
    ensures events { IfOk result (λ answers. events_in answers.items ≡ unrolled runs.now) }
    ensures fault { IfErr result (λ fault. IsAtEvent (length runs.now) fault) }
{
    let mut answers = Vec::new(rt.alloc());
    for at in 0..runs.len() {
        let Ok(()) = play_line(rt, session, &mut answers, runs[at]) else {
            return Err(RunFault::NoMemory(at));
        };
    }
    Ok(answers)
}

/// Does a line's event as often as the line says, and adds the answers.
fn play_line<A: Allocator + Copy, R: Alloc<A = A>>(
    rt: &R,
    session: &mut Session<A>,
    answers: &mut Vec<Answered, A>,
    run: Run,
) -> Result<(), AllocError>
    ensures leads { OnOk result ((t : Talk A) → LeadsTo t (events_in answers.old.items) (replies_in answers.old.items) (talk session.old) → LeadsTo t (events_in answers.new.items) (replies_in answers.new.items) (talk session.new)) }
    ensures events { OnOk result (events_in answers.new.items ≡ events_in answers.old.items ++ replicate run.times run.event) }
{
    for done in 0..run.times {
        let _ = done;
        let reply = session.step(rt, run.event)?;
        add_answer(answers, run.event, reply)?;
    }
    Ok(())
}

/// Whether both are the same reply.
fn is_same(one: Reply, other: Reply) -> bool
    ensures { IsTrue result → one ≡ other }
{
    one == other
}

/// Adds an event with its reply to the answers.
fn add_answer<A: Allocator + Copy>(
    answers: &mut Vec<Answered, A>,
    event: Event,
    reply: Reply,
) -> Result<(), AllocError>
    ensures events { OnOk result (events_in answers.new.items ≡ events_in answers.old.items ++ event ∷ []) }
    ensures replies { OnOk result (replies_in answers.new.items ≡ replies_in answers.old.items ++ reply ∷ []) }
{
    let count = answers.len();
    if count > 0 {
        let last = answers[count - 1];
        if last.event == event && is_same(last.reply, reply) && last.times < u32::MAX {
            answers[count - 1] = Answered {
                event,
                reply,
                times: last.times + 1,
            };
            return Ok(());
        }
    }
    answers.push(Answered {
        event,
        reply,
        times: 1,
    })?;
    Ok(())
}
