//! The loop.

ghost use Rattle.std.specs.Prelude.{◌≡◌, ◌≤◌, ◌++◌, ℕ, List, OnOk, length};
ghost use Rattle.std.specs.declared.alloc.Global.{Global};
ghost use Rattle.fleet_talk.specs.Chapters.{ChapterView};
ghost use Rattle.live_fleet.specs.Out.{out_of, text_at};
ghost use Rattle.live_fleet.specs.Party.{Heard, IsDoorOf, stage_of};
ghost use Rattle.live_parts.specs.Kept.{AreSound};
ghost use Rattle.fleet_live.specs.Logged.{IsReadyAt, Logs};
ghost use Rattle.fleet_live.specs.Loop.{Keeps, MayHear, next_heard};

use crate::ends::{Events, Listeners, Next};
use live_fleet::{Outboxes, Party};
use std::alloc::{Alloc, AllocError, Global};
use std::sync::Wait;
use std::thread::Threads;
use std::time::Clock;

/// Does what is to be done next.
fn go_on<R: Alloc<A = Global> + Clock + Threads + Sync + Wait, L: Listeners>(
    rt: &R,
    party: &mut Party,
    out: &mut Outboxes,
    listeners: &mut L,
    next: Next,
    line: &[u8],
) -> Result<(), AllocError>
    // Of each call: only a call with a condition may hand on closures.
    requires number { 0 ≤ party.old.fleet.session.world.core.number }
    requires within { (k : ℕ) → L.ahead listeners.old k ≤ length (text_at (out_of out.old) k) }
    requires sound { AreSound (out_of out.old).chapters }
    requires ready { (before : List (ChapterView Global)) × IsReadyAt (L.log listeners.old) before (stage_of party.old out.old) }
    requires may { MayHear (stage_of party.old out.old) next line.now }
    requires door { IsDoorOf (stage_of party.old out.old) }
    ensures kept { OnOk result (Keeps (stage_of party.old out.old) (stage_of party.new out.new) (next_heard next line.now) (L.told listeners.old) (L.told listeners.new)
        (L.ahead listeners.old) (L.ahead listeners.new) (L.kept listeners.old) (L.kept listeners.new)) }
    ensures logs { OnOk result ((before : List (ChapterView Global)) → IsReadyAt (L.log listeners.old) before (stage_of party.old out.old) → Logs (stage_of party.old out.old) (stage_of party.new out.new) (next_heard next line.now)
        (L.told listeners.old) (L.told listeners.new) (L.ahead listeners.old) (L.kept listeners.old) (L.kept listeners.new) before (L.log listeners.old) (L.log listeners.new)) }
{
    match next {
        Next::Hear(asked) => party.hear(rt, asked.cue(line), out),
        Next::Hand => listeners.hand(rt, party, out),
        Next::Search => {
            // If memory runs out, a later turn searches what it needs.
            let _searched = party.fleet.session.world.search_ahead(rt);
            Ok(())
        }
        Next::Over => Ok(()),
    }
}

/// Lets a fleet hear one event after another, until it has ended and all was told, and hands on what is said.
pub fn keep<R: Alloc<A = Global> + Clock + Threads + Sync + Wait, E: Events, L: Listeners>(
    rt: &R,
    party: &mut Party,
    out: &mut Outboxes,
    events: &mut E,
    listeners: &mut L,
) -> Result<(), AllocError>
    // Of each call: only a call with a condition may hand on closures.
    requires number { 0 ≤ party.old.fleet.session.world.core.number }
    requires within { (k : ℕ) → L.ahead listeners.old k ≤ length (text_at (out_of out.old) k) }
    requires sound { AreSound (L.kept listeners.old ++ (out_of out.old).chapters) }
    requires ready { (before : List (ChapterView Global)) × IsReadyAt (L.log listeners.old) before (stage_of party.old out.old) }
    requires door { IsDoorOf (stage_of party.old out.old) }
    // What each conversation was told is the text of a core run of the events that were taken, and so are the chapters.
    // It follows from entries that the journal has, if one is written.
    ensures kept { OnOk result ((heard : List Heard) × (E.taken events.new ≡ E.taken events.old ++ heard)
        × Keeps (stage_of party.old out.old) (stage_of party.new out.new) heard (L.told listeners.old) (L.told listeners.new)
        (L.ahead listeners.old) (L.ahead listeners.new) (L.kept listeners.old) (L.kept listeners.new)
        × ((before : List (ChapterView Global)) → IsReadyAt (L.log listeners.old) before (stage_of party.old out.old) → Logs (stage_of party.old out.old) (stage_of party.new out.new) heard
        (L.told listeners.old) (L.told listeners.new) (L.ahead listeners.old) (L.kept listeners.old) (L.kept listeners.new) before (L.log listeners.old) (L.log listeners.new))) }
{
    let mut line = Vec::new(rt.alloc());
    for _ in rt.forever() {
        match events.next(rt, party, out, &mut line)? {
            Next::Over => return Ok(()),
            next => go_on(rt, party, out, listeners, next, &line)?,
        }
    }
    unreachable!()
}
