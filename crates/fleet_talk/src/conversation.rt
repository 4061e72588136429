//! A conversation as a whole.

ghost use Rattle.std.specs.Prelude.{◌≡◌, ◌≤◌, ◌∷◌, ℕ, List, Option, [], Err, OnOk, IfOk, IfErr, IfSome, vec_len};
ghost use Rattle.std.specs.Io.Buffered.{reader_buffer, reader_remaining};
ghost use Rattle.std.specs.Io.KnownBytes.{Appends};
ghost use Rattle.std.specs.declared.alloc.Global.{Global};
ghost use Rattle.fleet_grid.specs.Floor.{Floor};
ghost use Rattle.fleet_history.specs.History.{history_of};
ghost use Rattle.fleet_text.specs.Kit.{kit_laws};
ghost use Rattle.fleet_text.specs.Transfer.{AppendsPrefix};
ghost use Rattle.fleet_core.specs.declared.faults.OpenFault.{OpenFault};
ghost use Rattle.fleet_world.specs.Keeps.{talk};
ghost use Rattle.fleet_talk.specs.Broken.{IsMidway};
ghost use Rattle.turns_law.specs.Turns.{Turns};
ghost use Rattle.fleet_talk.specs.Chapters.{Adds, ChapterView, IsSound, KeepsLast, chapter_shown};
ghost use Rattle.fleet_talk.specs.Conversation.{ComesTo, IsBegun, IsConversation, IsRefusedHead, IsRoomlessHead, Terms};
ghost use Rattle.fleet_talk.specs.Due.{IsDone};
ghost use Rattle.fleet_talk.specs.Ending.{Finishes, Keeps};
ghost use Rattle.fleet_talk.specs.Heading.{drafted};

use crate::ends::{ChapterSink, Ends, Settings};
use crate::fault::TalkFault;
use crate::going::{Entrance, go_on};
use crate::ground::Ground;
use crate::heading::hear_head;
use crate::open_fleet::OpenFleet;
use crate::opening::open_planned;
use crate::pen::Pen;
use crate::writing::back_up;
use fleet_history::Chapter;
use std::alloc::{Alloc, Global};
use std::io::{Read, Write};

/// Keeps the last chapter, however the conversation ended. Returns whether a limit was met.
fn keep_last<S: ChapterSink>(
    sink: &mut S,
    chapter: &Chapter,
    ended: Result<(), TalkFault>,
    limited: bool,
) -> Result<bool, TalkFault>
    requires sound { (turns : Option Turns) × (m : Floor) × IsSound turns m (history_of chapter.now) }
    ensures ended { Keeps ended limited result }
    ensures kept { OnOk result (Adds (S.kept sink.old) (S.kept sink.new) (chapter_shown chapter.now ∷ [])) }
{
    let kept = sink.keep(chapter);
    ended?;
    kept?;
    Ok(limited)
}

/// Ends the fleet after its conversation, and keeps its last chapter. Returns whether a limit was met.
pub(crate) fn close<S: ChapterSink>(
    fleet: OpenFleet,
    sink: &mut S,
    ended: Result<(), TalkFault>,
) -> Result<bool, TalkFault>
    // Of each call: only a call with a condition may hand on closures.
    requires { 0 ≤ fleet.session.world.core.number }
    ensures ended { Keeps ended fleet.limited result }
    ensures kept { OnOk result (KeepsLast (S.kept sink.old) (S.kept sink.new) (talk fleet.session)) }
{
    let OpenFleet { session, limited } = fleet;
    let (_grid, chapter) = session.finish();
    keep_last(sink, &chapter, ended, limited)
}

/// Writes what was said, at the end.
pub(crate) fn end<W: Write>(
    pen: &mut Pen,
    output: &mut W,
    ended: Result<bool, TalkFault>,
) -> Result<bool, TalkFault>
    ensures { Finishes ended (W.contents output.old) (W.contents output.new) pen.old.out.items result }
{
    if !pen.write_out(output) {
        return Err(TalkFault::Output);
    }
    ended
}

/// Holds a conversation; the last answers are left for the caller to write. Returns whether a limit was met.
fn hold<R: Alloc<A = Global>, I: Read, W: Write, S: ChapterSink>(
    rt: &R,
    ground: Ground,
    ends: &mut Ends<I, W, S>,
    pen: &mut Pen,
) -> Result<bool, TalkFault>
    // Of each call: only a call with a condition may hand on closures.
    requires closures { 0 ≤ vec_len ground.kit.plain.ties }
    requires done { IsDone (reader_buffer ends.old.input) pen.old.out.items }
    ensures { IfSome (reader_remaining I.remaining ends.old.input) (λ bytes.
        ComesTo (record { kit = kit_laws ground.kit; floor = ground.grid; settings = pen.old.settings; head = drafted ground.head }) bytes
        (W.contents ends.old.output) (W.contents ends.new.output) pen.old.out.items pen.new.out.items
        (record { old = S.kept ends.old.sink; new = S.kept ends.new.sink }) result) }
{
    let alloc = rt.alloc();
    let Ground { grid, kit, head } = ground;
    let mut head = head;
    let mut bytes = Vec::new(alloc);
    match hear_head(alloc, ends, &mut head, &mut bytes, pen) {
        Ok(Some(first)) => match open_planned(alloc, Ground { grid, kit, head }, pen.settings) {
            Ok((session, door)) => {
                ends.sink.opened(&door);
                let mut fleet = OpenFleet {
                    session,
                    limited: false,
                };
                let entrance = Entrance { first, door: &door };
                let ended = go_on(rt, &mut fleet, ends, &mut bytes, pen, entrance);
                back_up(&fleet.session, &mut ends.sink, pen);
                close(fleet, &mut ends.sink, ended)
            }
            Err(fault) => Err(fault),
        },
        Ok(None) => {
            drop(kit);
            Ok(false)
        }
        Err(fault) => {
            drop(kit);
            Err(fault)
        }
    }
}

/// Holds a conversation: hears its head, opens the fleet at the first line that asks something of it, and answers each
/// line as `errands run` does, until the input ends or a line says `quit`. Each chapter goes to the sink when it is
/// handed out, and the last at the end. Returns whether a limit was met: an event was refused because the chapter was
/// full or the clock spent.
pub fn converse<R: Alloc<A = Global>, I: Read, W: Write, S: ChapterSink>(
    rt: &R,
    ground: Ground,
    settings: Settings,
    ends: &mut Ends<I, W, S>,
) -> Result<bool, TalkFault>
    // Of each call: only a call with a condition may hand on closures.
    requires { 0 ≤ vec_len ground.kit.plain.ties }
    // A whole conversation over the lines of the input was written, and its chapters were kept: those that were handed
    // out, in order, and the last.
    ensures ended { IfOk result (λ met. IfSome (reader_remaining I.remaining ends.old.input) (λ bytes. (text : List ℕ) × (chapters : List (ChapterView Global))
        × IsConversation (record { kit = kit_laws ground.kit; floor = ground.grid; settings = settings; head = drafted ground.head }) bytes text chapters met
        × Appends (W.contents ends.old.output) (W.contents ends.new.output) text
        × Adds (S.kept ends.old.sink) (S.kept ends.new.sink) chapters)) }
    // The answers to the head's lines were written, and the fleet is refused for this reason.
    ensures refused { (why : OpenFault) → result ≡ Err (TalkFault.Opening why) → IfSome (reader_remaining I.remaining ends.old.input) (λ bytes. (text : List ℕ)
        × IsRefusedHead (record { kit = kit_laws ground.kit; floor = ground.grid; settings = settings; head = drafted ground.head }) bytes text why
        × Appends (W.contents ends.old.output) (W.contents ends.new.output) text) }
    // They were written, and the fleet may be opened, but its robots were to take turns, and the rooms of the map did not
    // pass their checks.
    ensures roomless { result ≡ Err TalkFault.NoRooms → IfSome (reader_remaining I.remaining ends.old.input) (λ bytes. (text : List ℕ)
        × IsRoomlessHead (record { kit = kit_laws ground.kit; floor = ground.grid; settings = settings; head = drafted ground.head }) bytes text
        × Appends (W.contents ends.old.output) (W.contents ends.new.output) text) }
    // A line could not be read, a chapter not kept, or memory ran out: all that was said until then was written.
    ensures broken { IfErr result (λ fault. IsMidway fault → IfSome (reader_remaining I.remaining ends.old.input) (λ bytes. (text : List ℕ)
        × IsBegun (record { kit = kit_laws ground.kit; floor = ground.grid; settings = settings; head = drafted ground.head }) bytes text
        × Appends (W.contents ends.old.output) (W.contents ends.new.output) text)) }
    // A write failed: a prefix of what was said until then was written.
    ensures unwritten { result ≡ Err TalkFault.Output → IfSome (reader_remaining I.remaining ends.old.input) (λ bytes. (text : List ℕ)
        × IsBegun (record { kit = kit_laws ground.kit; floor = ground.grid; settings = settings; head = drafted ground.head }) bytes text
        × AppendsPrefix (W.contents ends.old.output) (W.contents ends.new.output) text) }
{
    let mut pen = Pen::new(rt.alloc(), settings);
    let ended = hold(rt, ground, ends, &mut pen);
    end(&mut pen, &mut ends.output, ended)
}
