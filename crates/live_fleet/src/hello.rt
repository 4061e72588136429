//! What a fleet says of itself to whoever begins to speak with it.

ghost use Rattle.std.specs.Prelude.{◌≡◌, ◌≤◌, ◌<◌, ◌++◌, IfOk, List, OnOk, Some, slice_get, string_bytes, vec_len};
ghost use Rattle.fleet_talk.specs.Said.{under};
ghost use Rattle.live_fleet.specs.declared.speaker.Speaker.{Speaker};
ghost use Rattle.live_fleet.specs.Act.{Act};
ghost use Rattle.live_fleet.specs.Hello.{HearsHello, facts_of, hello_line, limits_text, progress_text, size_text};
ghost use Rattle.live_fleet.specs.Party.{stage_of};

use crate::line::Place;
use crate::outboxes::Outboxes;
use crate::party::Party;
use fleet_world::Session;
use std::alloc::{AllocError, Global};
use std::fmt::Write;

/// What a fleet is, and how far it is.
#[derive(Clone, Copy, Debug, PartialEq, Eq)]
struct Facts {
    robots: usize,
    clients: usize,
    /// The sides of the map.
    width: u32,
    height: u32,
    /// The chapter's number.
    chapter: u32,
    /// The ticks made.
    tick: u64,
    /// How many errands a robot may have, how many notices and errands under way a client, and how many orders of it may
    /// wait.
    queue: u32,
    mailbox: u32,
    lane: u32,
}

/// What the fleet of a session is.
fn facts_of(session: &Session) -> Facts
    requires { 0 ≤ session.now.world.core.number }
    ensures { result ≡ facts_of session.now.world.core }
{
    let world = &session.world;
    let limits = world.core.limits();
    Facts {
        robots: world.robots(),
        clients: world.clients(),
        width: world.grid().width(),
        height: world.grid().height(),
        chapter: world.chapter().number,
        tick: world.clock(),
        queue: limits.queue,
        mailbox: limits.mailbox,
        lane: limits.lane,
    }
}

/// How large it is.
fn write_size(text: &mut String, facts: Facts) -> Result<(), AllocError>
    ensures { OnOk result (string_bytes text.new ≡ string_bytes text.old ++ size_text facts) }
{
    let (robots, clients, width, height) = (facts.robots, facts.clients, facts.width, facts.height);
    write!(
        text,
        "hello version 0.1.0 robots {robots} clients {clients} width {width} height {height}"
    )
}

/// How far it is.
fn write_progress(text: &mut String, facts: Facts) -> Result<(), AllocError>
    ensures { OnOk result (string_bytes text.new ≡ string_bytes text.old ++ progress_text facts) }
{
    let (chapter, tick) = (facts.chapter, facts.tick);
    write!(text, " chapter {chapter} tick {tick}")
}

/// Its limits, and the end of the line.
fn write_limits(text: &mut String, facts: Facts) -> Result<(), AllocError>
    ensures { OnOk result (string_bytes text.new ≡ string_bytes text.old ++ limits_text facts) }
{
    let (queue, mailbox, lane) = (facts.queue, facts.mailbox, facts.lane);
    write!(text, " queue {queue} mailbox {mailbox} lane {lane}\n")
}

/// The line that says it.
fn hello_line(alloc: Global, facts: Facts) -> Result<String, AllocError>
    ensures { IfOk result (λ text. string_bytes text ≡ hello_line facts) }
{
    let mut text = String::new(alloc);
    write_size(&mut text, facts)?;
    write_progress(&mut text, facts)?;
    write_limits(&mut text, facts)?;
    Ok(text)
}

impl Party {
    /// Hears that a conversation asks what the fleet is.
    pub(crate) fn hear_hello(
        &mut self,
        alloc: Global,
        out: &mut Outboxes,
        place: Place<'_>,
    ) -> Result<(), AllocError>
        requires number { 0 ≤ self.old.fleet.session.world.core.number }
        requires there { place.to < vec_len self.old.speakers }
        requires texts { vec_len self.old.speakers ≤ vec_len out.old.texts }
        ensures ok { OnOk result ((sp : Speaker) → slice_get self.old.speakers.items place.entry.to ≡ Some sp →
            (acts : List Act) × HearsHello place.entry.to sp (under place.entry.line.mark) (stage_of self.old out.old) acts (stage_of self.new out.new)) }
    {
        let facts = facts_of(&self.fleet.session);
        let text = hello_line(alloc, facts)?;
        self.say(alloc, out, place, text.as_str())
    }
}
