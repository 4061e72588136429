//! What a client that comes again asks for: how far the fleet is with it, and what it was told.

ghost use Rattle.std.specs.Prelude.{◌≡◌, ◌≤◌, ◌<◌, ◌++◌, List, Some, IfOk, OnOk, length, slice_get, string_bytes, vec_len};
ghost use Rattle.std.specs.List.{flat_map};
ghost use Rattle.fleet_text.specs.Output.{notice_line};
ghost use Rattle.fleet_talk.specs.Said.{under};
ghost use Rattle.live_fleet.specs.declared.speaker.Speaker.{Speaker};
ghost use Rattle.live_fleet.specs.Act.{Act};
ghost use Rattle.live_fleet.specs.Hearing.{HearsSession, HearsSince};
ghost use Rattle.live_fleet.specs.Party.{stage_of};
ghost use Rattle.live_fleet.specs.Sessions.{again_text, closed_word, mark_len, note_at, session_line, since_text, standing_at, told_again};

use crate::line::Place;
use crate::notes::Note;
use crate::outboxes::Outboxes;
use crate::party::Party;
use fleet_book::Notice;
use fleet_text::notice_line;
use live_parts::Recalls;
use std::alloc::{AllocError, Global};
use std::fmt::Write;

/// Up to this length, marks included, another notice is told again in one answer. So no answer is longer than half of
/// what may wait for a reader: where it has no room, so much waits that the loop looks whether some was taken.
const MUCH: usize = 14_336;

/// How far the fleet is with a client.
#[derive(Clone, Copy, Debug, PartialEq, Eq)]
struct Standing {
    client: u32,
    /// How many of its orders the fleet has.
    orders: u64,
    /// How many notices it was told, and the first of them that can be told again.
    told: u64,
    first: u64,
    closed: bool,
}

/// What is known of a client's posts.
pub(crate) fn note_at(notes: &[Note], client: u32) -> Note
    ensures { result ≡ note_at notes.now client }
{
    match notes.get(client as usize) {
        Some(note) => *note,
        None => Note {
            closed: false,
            last: 0,
        },
    }
}

/// How far the fleet is with a client.
fn standing_at(notes: &[Note], recalls: &Recalls, client: u32) -> Standing
    ensures { result ≡ standing_at notes.now recalls.now client }
{
    let note = note_at(notes, client);
    Standing {
        client,
        orders: note.last,
        told: recalls.told(client),
        first: recalls.first(client),
        closed: note.closed || recalls.was_closed(client),
    }
}

/// The word for whether a client was closed.
fn closed_word(closed: bool) -> &'static str
    ensures { result.now ≡ closed_word closed }
{
    if closed { "true" } else { "false" }
}

/// The line of how far the fleet is with a client.
fn session_line(alloc: Global, standing: Standing) -> Result<String, AllocError>
    ensures { IfOk result (λ text. string_bytes text ≡ session_line standing) }
{
    let Standing {
        client,
        orders,
        told,
        first,
        closed,
    } = standing;
    let closed = closed_word(closed);
    format!(in alloc;
        "session {client} orders {orders} notices {told} told from {first} closed {closed}\n"
    )
}

/// How many bytes a mark adds to a line.
fn mark_len(mark: Option<&[u8]>) -> usize
    ensures { result ≡ mark_len (under mark.entry) }
{
    match mark {
        Some(mark) => mark.len().saturating_add(1),
        None => 0,
    }
}

/// Adds the line of a notice, and returns its length.
fn add_line(
    alloc: Global,
    text: &mut String,
    client: u32,
    notice: &Notice,
) -> Result<usize, AllocError>
    ensures len { IfOk result (λ len. len ≡ length (notice_line client notice.now)) }
    ensures text { OnOk result (string_bytes text.new ≡ string_bytes text.old ++ notice_line client notice.now) }
{
    let line = notice_line(alloc, client, *notice)?;
    text.push_str(line.as_str())?;
    Ok(line.as_bytes().len())
}

/// Adds the lines of notices that are told again, as many as one answer has, and returns how many they are. Each line has
/// a mark of this length.
fn write_again(
    alloc: Global,
    text: &mut String,
    client: u32,
    notices: &[Notice],
    mark: usize,
) -> Result<usize, AllocError>
    ensures count { IfOk result (λ count. count ≡ length (told_again mark client 14336 notices.now)) }
    ensures text { OnOk result (string_bytes text.new ≡ string_bytes text.old ++ flat_map (notice_line client) (told_again mark client 14336 notices.now)) }
{
    let mut left = MUCH;
    for at in 0..notices.len() {
        if left == 0 {
            return Ok(at);
        }
        let len = add_line(alloc, text, client, &notices[at])?;
        left = left.saturating_sub(len).saturating_sub(mark);
    }
    Ok(notices.len())
}

/// The lines of notices that are told again, and how many they are.
fn again_text(
    alloc: Global,
    client: u32,
    notices: &[Notice],
    mark: usize,
) -> Result<String, AllocError>
    ensures { IfOk result (λ text. string_bytes text ≡ again_text client (told_again mark client 14336 notices.now)) }
{
    let mut text = String::new(alloc);
    let count = write_again(alloc, &mut text, client, notices, mark)?;
    write!(text, "since {client} end {count}\n")?;
    Ok(text)
}

/// What a client is told again after the notice of this number.
fn since_text(
    alloc: Global,
    recalls: &Recalls,
    client: u32,
    seq: u64,
    mark: usize,
) -> Result<String, AllocError>
    ensures { IfOk result (λ text. string_bytes text ≡ since_text recalls.now mark client seq) }
{
    let notices = recalls.after(client, seq)?;
    again_text(alloc, client, &notices, mark)
}

impl Party {
    /// Hears that a client asks how far the fleet is with it.
    pub(crate) fn hear_session(
        &mut self,
        alloc: Global,
        out: &mut Outboxes,
        place: Place<'_>,
        client: u32,
    ) -> Result<(), AllocError>
        requires number { 0 ≤ self.old.fleet.session.world.core.number }
        requires there { place.to < vec_len self.old.speakers }
        requires texts { vec_len self.old.speakers ≤ vec_len out.old.texts }
        ensures ok { OnOk result ((sp : Speaker) → slice_get self.old.speakers.items place.entry.to ≡ Some sp →
            (acts : List Act) × HearsSession place.entry.to sp (under place.entry.line.mark) client (stage_of self.old out.old) acts (stage_of self.new out.new)) }
    {
        if !self.is_own(place.to, client) {
            return self.refuse_client(alloc, out, place, client);
        }
        let standing = standing_at(&self.notes, &self.fleet.recalls, client);
        let text = session_line(alloc, standing)?;
        self.say(alloc, out, place, text.as_str())
    }

    /// Hears that a client is to be told again what it was told after this notice, as much as one answer has.
    pub(crate) fn hear_since(
        &mut self,
        alloc: Global,
        out: &mut Outboxes,
        place: Place<'_>,
        client: u32,
        seq: u64,
    ) -> Result<(), AllocError>
        requires number { 0 ≤ self.old.fleet.session.world.core.number }
        requires there { place.to < vec_len self.old.speakers }
        requires texts { vec_len self.old.speakers ≤ vec_len out.old.texts }
        ensures ok { OnOk result ((sp : Speaker) → slice_get self.old.speakers.items place.entry.to ≡ Some sp →
            (acts : List Act) × HearsSince place.entry.to sp (under place.entry.line.mark) client seq (stage_of self.old out.old) acts (stage_of self.new out.new)) }
    {
        if !self.is_own(place.to, client) {
            return self.refuse_client(alloc, out, place, client);
        }
        let mark = mark_len(place.line.mark);
        let text = since_text(alloc, &self.fleet.recalls, client, seq, mark)?;
        self.say(alloc, out, place, text.as_str())
    }
}
