//! A conversation whose fleet goes on from a chapter.

ghost use Rattle.std.specs.Prelude.{◌≡◌, ◌≤◌, ℕ, List, Err, OnOk, IfOk, IfErr, IfSome, vec_len};
ghost use Rattle.std.specs.Io.Buffered.{reader_buffer, reader_remaining};
ghost use Rattle.std.specs.Io.KnownBytes.{Appends};
ghost use Rattle.std.specs.declared.alloc.Global.{Global};
ghost use Rattle.fleet_bridge.specs.Roominess.{AreRoomyFor};
ghost use Rattle.fleet_text.specs.Kit.{kit_laws};
ghost use Rattle.fleet_text.specs.Transfer.{AppendsPrefix};
ghost use Rattle.fleet_world.specs.Keeps.{talk};
ghost use Rattle.fleet_talk.specs.Act.{acts_from};
ghost use Rattle.fleet_talk.specs.Acts.{Talks};
ghost use Rattle.fleet_talk.specs.Broken.{IsMidway};
ghost use Rattle.fleet_talk.specs.Chapters.{Adds, ChapterView, KeepsTurned, chapter_shown};
ghost use Rattle.fleet_talk.specs.Due.{IsDone};
ghost use Rattle.fleet_talk.specs.Heading.{drafted};
ghost use Rattle.fleet_talk.specs.Fleet.{opened_fleet};
ghost use Rattle.fleet_talk.specs.Heard.{heard_lines};
ghost use Rattle.fleet_talk.specs.Open.{fleet_of};
ghost use Rattle.fleet_talk.specs.Resumed.{ComesOpen, IsAnswered, IsAnsweredInPart, IsRefusal, IsResumeFault, IsResumption, IsResumptionBegun, IsRoomless};
ghost use Rattle.fleet_talk.specs.Says.{Says};
ghost use Rattle.fleet_talk.specs.Talked.{TalksUntil};

use crate::conversation::{close, end};
use crate::door::Door;
use crate::ends::{ChapterSink, Ends, Settings};
use crate::fault::TalkFault;
use crate::going::{Entrance, go_on};
use crate::ground::Ground;
use crate::open_fleet::OpenFleet;
use crate::pen::Pen;
use crate::reading::next_line;
use crate::resuming::{ResumeFault, reopen};
use crate::writing::back_up;
use fleet_history::Chapter;
use fleet_world::Session;
use std::alloc::{Alloc, Global};
use std::io::{Read, Write};

/// Answers all lines of the input.
fn answer_all<R: Alloc<A = Global>, I: Read, W: Write, S: ChapterSink>(
    rt: &R,
    fleet: &mut OpenFleet,
    ends: &mut Ends<I, W, S>,
    pen: &mut Pen,
    door: &Door,
) -> Result<(), TalkFault>
    requires known { AreRoomyFor fleet.old.session.world.core.floor door.now.roominess.items }
    requires done { IsDone (reader_buffer ends.old.input) pen.old.out.items }
    ensures talks { OnOk result (IfSome (reader_remaining I.remaining ends.old.input) (λ xs. (text : List ℕ)
        × Talks pen.old.settings.roll (fleet_of fleet.old) (acts_from pen.old.settings door.now.refused.marks.items 1 (heard_lines xs)) text (fleet_of fleet.new)
        × Says (W.contents ends.old.output) (W.contents ends.new.output) pen.old.out.items pen.new.out.items text)) }
    ensures kept { OnOk result (KeepsTurned (S.kept ends.old.sink) (S.kept ends.new.sink) (talk fleet.old.session) (talk fleet.new.session)) }
    ensures broken { IfErr result (λ fault. IfSome (reader_remaining I.remaining ends.old.input) (λ xs.
        TalksUntil fault pen.old.settings.roll (fleet_of fleet.old) (acts_from pen.old.settings door.now.refused.marks.items 1 (heard_lines xs))
        (W.contents ends.old.output) (W.contents ends.new.output) pen.old.out.items pen.new.out.items)) }
{
    let mut bytes = Vec::new(rt.alloc());
    if !next_line(&mut ends.input, pen, &mut bytes)? {
        return Ok(());
    }
    go_on(
        rt,
        fleet,
        ends,
        &mut bytes,
        pen,
        Entrance { first: 1, door },
    )
}

/// Holds a conversation with an open fleet; the last answers are left for the caller to write. Returns whether a limit
/// was met.
fn hold_open<R: Alloc<A = Global>, I: Read, W: Write, S: ChapterSink>(
    rt: &R,
    session: Session,
    ends: &mut Ends<I, W, S>,
    pen: &mut Pen,
    door: &Door,
) -> Result<bool, TalkFault>
    requires known { AreRoomyFor session.world.core.floor door.now.roominess.items }
    requires done { IsDone (reader_buffer ends.old.input) pen.old.out.items }
    ensures { IfSome (reader_remaining I.remaining ends.old.input) (λ bytes.
        ComesOpen pen.old.settings door.now.refused.marks.items (opened_fleet (talk session)) bytes
        (W.contents ends.old.output) (W.contents ends.new.output) pen.old.out.items pen.new.out.items
        (record { old = S.kept ends.old.sink; new = S.kept ends.new.sink }) result) }
{
    let mut fleet = OpenFleet {
        session,
        limited: false,
    };
    let ended = answer_all(rt, &mut fleet, ends, pen, door);
    back_up(&fleet.session, &mut ends.sink, pen);
    close(fleet, &mut ends.sink, ended)
}

/// Holds a conversation with an open fleet, from the first line on. Returns whether a limit was met.
fn converse_open<R: Alloc<A = Global>, I: Read, W: Write, S: ChapterSink>(
    rt: &R,
    session: Session,
    settings: Settings,
    ends: &mut Ends<I, W, S>,
    door: &Door,
) -> Result<bool, TalkFault>
    requires { AreRoomyFor session.world.core.floor door.now.roominess.items }
    ensures ended { IfOk result (λ met. IfSome (reader_remaining I.remaining ends.old.input) (λ bytes. (text : List ℕ) × (chapters : List (ChapterView Global))
        × IsAnswered settings door.now.refused.marks.items (opened_fleet (talk session)) bytes text chapters met
        × Appends (W.contents ends.old.output) (W.contents ends.new.output) text
        × Adds (S.kept ends.old.sink) (S.kept ends.new.sink) chapters)) }
    ensures broken { IfErr result (λ fault. IsMidway fault → IfSome (reader_remaining I.remaining ends.old.input) (λ bytes. (text : List ℕ)
        × IsAnsweredInPart settings door.now.refused.marks.items (opened_fleet (talk session)) bytes text
        × Appends (W.contents ends.old.output) (W.contents ends.new.output) text)) }
    ensures unwritten { result ≡ Err TalkFault.Output → IfSome (reader_remaining I.remaining ends.old.input) (λ bytes. (text : List ℕ)
        × IsAnsweredInPart settings door.now.refused.marks.items (opened_fleet (talk session)) bytes text
        × AppendsPrefix (W.contents ends.old.output) (W.contents ends.new.output) text) }
{
    let mut pen = Pen::new(rt.alloc(), settings);
    let ended = hold_open(rt, session, ends, &mut pen, door);
    end(&mut pen, &mut ends.output, ended)
}

/// Holds a conversation whose fleet goes on from a chapter: it is open before the first line, and each line is answered
/// as `converse` does after the head. Each chapter goes to the sink when it is handed out, and the last at the end.
/// Returns whether a limit was met.
///
/// Refused in this order, before a line is read: header lines that name another number of robots or of clients than the
/// chapter has, what `reopen_world` refuses, and, where posts to cells that are not roomy are refused, an errand to
/// such a cell in a queue.
pub fn resume<R: Alloc<A = Global>, I: Read, W: Write, S: ChapterSink>(
    rt: &R,
    ground: Ground,
    chapter: Chapter,
    settings: Settings,
    ends: &mut Ends<I, W, S>,
) -> Result<bool, ResumeFault>
    // Of each call: only a call with a condition may hand on closures.
    requires { 0 ≤ vec_len ground.kit.plain.ties }
    // A whole conversation over the lines of the input was written, and its chapters were kept: those that were handed
    // out, in order, and the last.
    ensures ended { IfOk result (λ met. IfSome (reader_remaining I.remaining ends.old.input) (λ bytes. (text : List ℕ) × (chapters : List (ChapterView Global))
        × IsResumption (record { kit = kit_laws ground.kit; floor = ground.grid; settings = settings; head = drafted ground.head }) (chapter_shown chapter) bytes text chapters met
        × Appends (W.contents ends.old.output) (W.contents ends.new.output) text
        × Adds (S.kept ends.old.sink) (S.kept ends.new.sink) chapters)) }
    // No fleet goes on from the chapter, for this reason.
    ensures refused { IfErr result (λ fault. IsRefusal fault → IsResumeFault settings.roomy (kit_laws ground.kit) ground.grid (drafted ground.head) (chapter_shown chapter) fault) }
    // Then no line was read, and nothing was written or kept.
    ensures untouched { IfErr result (λ fault. IsRefusal fault → ends.new ≡ ends.old) }
    // A fleet goes on from it, but its robots were to take turns, and the rooms of the map did not pass their checks.
    ensures roomless { result ≡ Err ResumeFault.NoRooms →
        IsRoomless (record { kit = kit_laws ground.kit; floor = ground.grid; settings = settings; head = drafted ground.head }) (chapter_shown chapter) × (ends.new ≡ ends.old) }
    // A line could not be read, a chapter not kept, or memory ran out: all that was said until then was written.
    ensures broken { (why : TalkFault) → result ≡ Err (ResumeFault.Talk why) → IsMidway why → IfSome (reader_remaining I.remaining ends.old.input) (λ bytes. (text : List ℕ)
        × IsResumptionBegun (record { kit = kit_laws ground.kit; floor = ground.grid; settings = settings; head = drafted ground.head }) (chapter_shown chapter) bytes text
        × Appends (W.contents ends.old.output) (W.contents ends.new.output) text) }
    // A write failed: a prefix of what was said until then was written.
    ensures unwritten { result ≡ Err (ResumeFault.Talk TalkFault.Output) → IfSome (reader_remaining I.remaining ends.old.input) (λ bytes. (text : List ℕ)
        × IsResumptionBegun (record { kit = kit_laws ground.kit; floor = ground.grid; settings = settings; head = drafted ground.head }) (chapter_shown chapter) bytes text
        × AppendsPrefix (W.contents ends.old.output) (W.contents ends.new.output) text) }
{
    let opened = reopen(rt.alloc(), ground, &chapter, settings);
    let number = chapter.number;
    // A chapter may take much memory, and is not needed any more.
    drop(chapter);
    match opened {
        Ok((session, door)) => {
            ends.sink.goes_on(number, session.world.clock());
            ends.sink.opened(&door);
            match converse_open(rt, session, settings, ends, &door) {
                Ok(limited) => Ok(limited),
                Err(fault) => Err(ResumeFault::Talk(fault)),
            }
        }
        Err(fault) => Err(fault),
    }
}
