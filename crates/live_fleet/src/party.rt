//! A fleet, and the conversations that share it.

ghost use Rattle.std.specs.Prelude.{◌≡◌, ◌≤◌, ◌<◌, ◌↔◌, false, List, IfOk, IsTrue, OnOk, vec_len};
ghost use Rattle.fleet_history.specs.History.{clients as client_count};
ghost use Rattle.fleet_world.specs.Keeps.{talk};
ghost use Rattle.live_fleet.specs.Act.{Act};
ghost use Rattle.live_fleet.specs.Does.{CanHear, Does, IsAnswered, IsOpenTo, MakesTurn};
ghost use Rattle.live_fleet.specs.Party.{IsDoorOf, IsWhole, due, heard_of, new_notes, room, stage_of};
ghost use Rattle.live_fleet.specs.Recalling.{AreBegun, AreRecalled};
ghost use Rattle.live_fleet.specs.Went.{Went};

use crate::cue::Cue;
use crate::notes::Note;
use crate::open_fleet::OpenFleet;
use crate::outboxes::Outboxes;
use crate::speaker::Speaker;
use crate::stepping::hand_out;
use crate::telling::tell;
use crate::turning::{is_ticked, show_tick, turn};
use fleet_talk::Door;
use fleet_world::Session;
use live_parts::Recalls;
use std::alloc::{Alloc, AllocError, Global};

/// A fleet, the conversations that share it, and what is known of its clients.
#[derive(Drop)]
pub struct Party {
    pub fleet: OpenFleet,
    /// By conversation.
    pub speakers: Vec<Speaker>,
    /// How many clients there are.
    pub clients: u32,
    /// By client.
    pub notes: Vec<Note>,
    /// The cells to which posts are refused, and for how many robots each cell is roomy.
    pub door: Door,
    /// Whether no turn can follow: a tick was refused, or the fleet has ended.
    pub is_over: bool,
    /// Whether the fleet has ended.
    pub has_ended: bool,
}

/// How many clients a fleet has.
pub(crate) fn count_of(session: &Session) -> u32
    requires { 0 ≤ session.now.world.core.number }
    ensures { result ≡ client_count session.now.world.core.history }
{
    // Its contract says that there are few.
    let _chapter = session.world.chapter();
    session.world.clients() as u32
}

/// By client, what is known of a fleet whose clients posted nothing in this life.
fn new_notes(alloc: Global, session: &Session, clients: u32) -> Result<Vec<Note>, AllocError>
    requires { clients ≡ client_count session.now.world.core.history }
    ensures { IfOk result (λ notes. notes.items ≡ new_notes session.now.world.core.history) }
{
    let mut notes = Vec::with_capacity(alloc, clients as usize)?;
    for client in 0..clients {
        notes.push_reserved(Note {
            closed: false,
            last: session.world.core.taken(client),
        });
    }
    Ok(notes)
}

/// Begins with what clients were told before this fleet was opened, or went on: all that was noticed was told.
fn begin_recalls(recalls: &mut Recalls, session: &Session) -> Result<(), AllocError>
    requires { 0 ≤ session.now.world.core.number }
    ensures most { recalls.new.most ≡ recalls.old.most }
    ensures begun { OnOk result (AreBegun session.now.world.core.history recalls.old recalls.new) }
    ensures recalled { OnOk result (AreRecalled session.now.world.core.history recalls.new) }
{
    recalls.begin(session.world.chapter().opening.clients.as_slice())
}

/// Begins with what clients were told before, and returns by client what is known of its posts.
fn begin_clients(
    alloc: Global,
    session: &Session,
    recalls: &mut Recalls,
    clients: u32,
) -> Result<Vec<Note>, AllocError>
    requires number { 0 ≤ session.now.world.core.number }
    requires count { clients ≡ client_count session.now.world.core.history }
    ensures notes { IfOk result (λ notes. notes.items ≡ new_notes session.now.world.core.history) }
    ensures most { recalls.new.most ≡ recalls.old.most }
    ensures begun { OnOk result (AreBegun session.now.world.core.history recalls.old recalls.new) }
    ensures recalled { OnOk result (AreRecalled session.now.world.core.history recalls.new) }
{
    begin_recalls(recalls, session)?;
    new_notes(alloc, session, clients)
}

impl Party {
    /// The party of a fleet that was just opened, or goes on.
    pub fn new(
        alloc: Global,
        session: Session,
        speakers: Vec<Speaker>,
        door: Door,
        recalls: Recalls,
    ) -> Result<Party, AllocError>
        // Of each call: only a call with a condition may hand on closures.
        requires { 0 ≤ session.world.core.number }
        ensures session { IfOk result (λ p. talk p.fleet.session ≡ talk session) }
        ensures limited { IfOk result (λ p. p.fleet.limited ≡ false) }
        ensures most { IfOk result (λ p. p.fleet.recalls.most ≡ recalls.most) }
        ensures begun { IfOk result (λ p. AreBegun session.world.core.history recalls p.fleet.recalls) }
        ensures recalled { IfOk result (λ p. AreRecalled session.world.core.history p.fleet.recalls) }
        ensures speakers { IfOk result (λ p. p.speakers ≡ speakers) }
        ensures clients { IfOk result (λ p. p.clients ≡ client_count session.world.core.history) }
        ensures notes { IfOk result (λ p. p.notes.items ≡ new_notes session.world.core.history) }
        ensures door { IfOk result (λ p. p.door ≡ door) }
        ensures is_over { IfOk result (λ p. p.is_over ≡ false) }
        ensures has_ended { IfOk result (λ p. p.has_ended ≡ false) }
    {
        let mut recalls = recalls;
        let clients = count_of(&session);
        let notes = begin_clients(alloc, &session, &mut recalls, clients)?;
        Ok(Party {
            fleet: OpenFleet {
                session,
                limited: false,
                recalls,
            },
            speakers,
            clients,
            notes,
            door,
            is_over: false,
            has_ended: false,
        })
    }

    /// Whether each conversation has its text, and each client its note.
    fn is_whole(&self, out: &Outboxes) -> bool
        ensures { IsTrue result ↔ IsWhole (stage_of self.now out.now) }
    {
        out.texts.len() == self.speakers.len()
            && self.clients as usize == self.fleet.session.world.clients()
            && self.notes.len() == self.clients as usize
    }

    /// Whether a line of a conversation may be heard: it is there, and nothing is left of its last answer.
    fn is_answered(&self, from: usize) -> bool
        ensures { IsTrue result ↔ IsAnswered self.now.speakers.items from }
    {
        match self.speakers.get(from) {
            Some(speaker) => speaker.rest.is_done(),
            None => false,
        }
    }

    /// Whether what a cue asks can be done now.
    fn is_open_to(&self, cue: Cue<'_>) -> bool
        ensures { IsTrue result ↔ IsOpenTo self.now.speakers.items self.now.is_over self.now.has_ended (heard_of cue.entry) }
    {
        match cue {
            Cue::Line { from, .. } => self.is_answered(from),
            Cue::Room { to } => to < self.speakers.len(),
            Cue::Rest { from } | Cue::Last { from } => from < self.speakers.len(),
            Cue::Turn => !self.is_over,
            Cue::Due => true,
            Cue::Kept { .. } => true,
            Cue::End => !self.has_ended,
        }
    }

    /// Whether a cue may be heard, where what is said goes into these.
    pub fn can_hear(&self, cue: Cue<'_>, out: &Outboxes) -> bool
        requires { 0 ≤ self.now.fleet.session.world.core.number }
        ensures { IsTrue result ↔ CanHear (stage_of self.now out.now) (heard_of cue.entry) }
    {
        self.is_whole(out) && self.is_open_to(cue)
    }

    /// Makes a turn, and shows it.
    fn turn<R: Alloc<A = Global>>(&mut self, rt: &R, out: &mut Outboxes) -> Result<(), AllocError>
        requires number { 0 ≤ self.old.fleet.session.world.core.number }
        requires texts { vec_len self.old.speakers ≤ vec_len out.old.texts }
        ensures ok { OnOk result ((acts : List Act) × MakesTurn (stage_of self.old out.old) acts (stage_of self.new out.new)) }
    {
        let reply = turn(rt, &mut self.fleet, out, &self.speakers, self.clients)?;
        if is_ticked(reply) {
            return show_tick(rt.alloc(), &self.fleet, out, &self.speakers);
        }
        self.is_over = true;
        Ok(())
    }

    /// Hands out the chapter if it has an entry, and is not the last.
    fn hand_due(&mut self, out: &mut Outboxes) -> Result<(), AllocError>
        requires number { 0 ≤ self.old.fleet.session.world.core.number }
        ensures ok { OnOk result ((acts : List Act) × Does (stage_of self.old out.old) due acts (stage_of self.new out.new)) }
    {
        if self.fleet.session.world.chapter().entries.is_empty() {
            return Ok(());
        }
        hand_out(&mut self.fleet, out)?;
        Ok(())
    }

    /// Tells a conversation what it may be told now.
    fn tell_in<R: Alloc<A = Global>>(
        &mut self,
        rt: &R,
        out: &mut Outboxes,
        to: usize,
    ) -> Result<(), AllocError>
        requires number { 0 ≤ self.old.fleet.session.world.core.number }
        requires there { to < vec_len self.old.speakers }
        requires texts { vec_len self.old.speakers ≤ vec_len out.old.texts }
        ensures ok { OnOk result ((acts : List Act) × Does (stage_of self.old out.old) (room to) acts (stage_of self.new out.new)) }
    {
        tell(rt, &mut self.fleet, out, to, &self.speakers[to])
    }

    /// Does what a cue asks, and says it.
    pub fn hear<R: Alloc<A = Global>>(
        &mut self,
        rt: &R,
        cue: Cue<'_>,
        out: &mut Outboxes,
    ) -> Result<(), AllocError>
        // Of each call: only a call with a condition may hand on closures.
        requires number { 0 ≤ self.old.fleet.session.world.core.number }
        requires can { CanHear (stage_of self.old out.old) (heard_of cue) }
        requires door { IsDoorOf (stage_of self.old out.old) }
        // These acts were done, and each conversation was told exactly what they say to it.
        ensures does { OnOk result ((acts : List Act) × Does (stage_of self.old out.old) (heard_of cue.entry) acts (stage_of self.new out.new)
            × Went (stage_of self.old out.old).at acts (stage_of self.new out.new).at) }
        ensures whole { OnOk result (IsWhole (stage_of self.new out.new)) }
        ensures door { OnOk result (IsDoorOf (stage_of self.new out.new)) }
    {
        match cue {
            Cue::Line { from, line } => self.hear_line(rt, out, from, line),
            Cue::Room { to } => self.tell_in(rt, out, to),
            Cue::Rest { from } => self.go_on(rt, out, from),
            Cue::Last { from } => {
                self.hasten(from, out);
                Ok(())
            }
            Cue::Turn => self.turn(rt, out),
            Cue::Due => self.hand_due(out),
            Cue::Kept { chapter } => self.note_kept(rt.alloc(), out, chapter),
            Cue::End => self.end(rt, out),
        }
    }
}
