//! What a line of a conversation asks.

ghost use Rattle.std.specs.Prelude.{◌≡◌, ◌≤◌, List, IfOk, string_bytes, vec_len};
ghost use Rattle.live_fleet.specs.Act.{Act};
ghost use Rattle.live_fleet.specs.Asking.{Shuts};
ghost use Rattle.live_fleet.specs.Went.{at_of};

use crate::open_fleet::OpenFleet;
use crate::outboxes::Outboxes;
use crate::stepping::step_on;
use fleet_book::Event;
use fleet_talk::Line;
use fleet_text::shut_text;
use fleet_world::Reply;
use std::alloc::{Alloc, AllocError, Global};

/// The place of a conversation, and its line.
#[derive(Clone, Copy)]
pub(crate) struct Place<'a> {
    pub(crate) to: usize,
    pub(crate) line: Line<'a>,
}

/// Shuts a robot. Returns the answer.
pub(crate) fn shut_answer<R: Alloc<A = Global>>(
    rt: &R,
    fleet: &mut OpenFleet,
    out: &mut Outboxes,
    robot: u32,
) -> Result<String, AllocError>
    requires { 0 ≤ fleet.old.session.world.core.number }
    ensures ok { IfOk result (λ text. (acts : List Act) × Shuts robot (string_bytes text) (at_of fleet.old out.old) acts (at_of fleet.new out.new)) }
    ensures count { vec_len out.new.texts ≡ vec_len out.old.texts }
{
    match step_on(rt, fleet, out, Event::Shut(robot))? {
        Reply::ShutDone(parting) => shut_text(rt.alloc(), robot, Ok(parting)),
        Reply::ShutRefused(fault) => shut_text(rt.alloc(), robot, Err(fault)),
        // No other reply is given.
        _ => Ok(String::new(rt.alloc())),
    }
}
