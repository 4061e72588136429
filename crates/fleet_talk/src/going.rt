//! The lines of a conversation after its head: each is answered, and what is said and handed out is written and kept.

ghost use Rattle.std.specs.Prelude.{◌≡◌, ◌≤◌, ◌∷◌, ℕ, List, OnOk, OnErr, IfErr, IfSome};
ghost use Rattle.std.specs.declared.alloc.Global.{Global};
ghost use Rattle.std.specs.Io.Buffered.{reader_remaining};
ghost use Rattle.fleet_bridge.specs.Roominess.{AreRoomyFor};
ghost use Rattle.fleet_world.specs.Keeps.{talk};
ghost use Rattle.fleet_talk.specs.Act.{act_asked, acts_from, acts_on};
ghost use Rattle.fleet_talk.specs.Acts.{Does, Talks};
ghost use Rattle.fleet_talk.specs.Backed.{AllBacked, GoesOnce, PartBacked, Stands};
ghost use Rattle.fleet_talk.specs.Broken.{IsMidway};
ghost use Rattle.fleet_talk.specs.Chapters.{ChapterView, KeepsTurned, chapter_in};
ghost use Rattle.fleet_talk.specs.Heard.{heard_lines};
ghost use Rattle.fleet_talk.specs.Lines.{line_shown};
ghost use Rattle.fleet_talk.specs.Open.{fleet_of};
ghost use Rattle.fleet_talk.specs.Said.{IsAdded, IsKept};
ghost use Rattle.fleet_talk.specs.Says.{Says};
ghost use Rattle.fleet_talk.specs.Talked.{TalksUntil};

use crate::ask::{Line, is_quit};
use crate::doing::{hear, times};
use crate::door::{Door, line_let_in};
use crate::ends::{ChapterSink, Ends};
use crate::fault::TalkFault;
use crate::open_fleet::OpenFleet;
use crate::pen::Pen;
use crate::plays::turned;
use crate::reading::next_line;
use crate::writing::{tell_if_due, tell_if_full};
use std::alloc::{Alloc, Global};
use std::io::{Read, Write};

/// Does once what a line asks. A chapter that is handed out for it is brought down to the journal and kept before that is
/// said.
fn do_once<R: Alloc<A = Global>, S: ChapterSink>(
    rt: &R,
    fleet: &mut OpenFleet,
    sink: &mut S,
    pen: &mut Pen,
    line: Line<'_>,
    roominess: &[u32],
) -> Result<(), TalkFault>
    requires { AreRoomyFor fleet.old.session.world.core.floor roominess.now }
    ensures ok { OnOk result ((text : List ℕ) × Does pen.old.settings.roll (fleet_of fleet.old) (act_asked (line_shown line.entry) line.entry.asked) text (fleet_of fleet.new) × IsAdded pen.old pen.new text) }
    ensures kept { OnOk result (KeepsTurned (S.kept sink.old) (S.kept sink.new) (talk fleet.old.session) (talk fleet.new.session)) }
    ensures logged { OnOk result ((chapters : List (ChapterView Global)) → Stands (S.journal sink.old) chapters (chapter_in fleet.old.session.world.core)
        → GoesOnce (fleet_of fleet.old) (fleet_of fleet.new) chapters (S.journal sink.old) (S.journal sink.new)) }
    ensures err { OnErr result (IsKept pen.old pen.new) }
    ensures midway { IfErr result (λ fault. IsMidway fault) }
{
    match hear(rt, fleet, pen, line, roominess)? {
        Some(chapter) => {
            // After a fault nothing more is told.
            let _is_logged = sink.log(&chapter);
            sink.keep(&chapter)?;
            Ok(turned(rt, fleet, pen, line, &chapter)?)
        }
        None => Ok(()),
    }
}

/// Answers a line.
fn answer<R: Alloc<A = Global>, I, W: Write, S: ChapterSink>(
    rt: &R,
    fleet: &mut OpenFleet,
    ends: &mut Ends<I, W, S>,
    pen: &mut Pen,
    line: Line<'_>,
    roominess: &[u32],
) -> Result<(), TalkFault>
    requires { AreRoomyFor fleet.old.session.world.core.floor roominess.now }
    ensures talks { OnOk result ((text : List ℕ) × Talks pen.old.settings.roll (fleet_of fleet.old) (acts_on pen.old.settings (line_shown line.entry)) text (fleet_of fleet.new)
        × Says (W.contents ends.old.output) (W.contents ends.new.output) pen.old.out.items pen.new.out.items text) }
    ensures kept { OnOk result (KeepsTurned (S.kept ends.old.sink) (S.kept ends.new.sink) (talk fleet.old.session) (talk fleet.new.session)) }
    ensures broken { IfErr result (λ fault. TalksUntil fault pen.old.settings.roll (fleet_of fleet.old) (acts_on pen.old.settings (line_shown line.entry))
        (W.contents ends.old.output) (W.contents ends.new.output) pen.old.out.items pen.new.out.items) }
    ensures logged { OnOk result (AllBacked pen.old.settings.roll (fleet_of fleet.old) (fleet_of fleet.new) (acts_on pen.old.settings (line_shown line.entry)) (W.contents ends.old.output) (W.contents ends.new.output) pen.old.out.items (S.journal ends.old.sink) (S.journal ends.new.sink)) }
    ensures cut { IfErr result (λ fault. fault ≡ TalkFault.Output → PartBacked pen.old.settings.roll (fleet_of fleet.old) (acts_on pen.old.settings (line_shown line.entry)) (W.contents ends.old.output) (W.contents ends.new.output) pen.old.out.items (S.journal ends.old.sink) (S.journal ends.new.sink)) }
    ensures settings { pen.new.settings ≡ pen.old.settings }
    ensures input { ends.new.input ≡ ends.old.input }
{
    for _ in 0..times(line.asked) {
        do_once(rt, fleet, &mut ends.sink, pen, line, roominess)?;
        tell_if_full(&fleet.session, ends, pen)?;
    }
    Ok(pen.say_end(rt.alloc(), line)?)
}

/// Where an open fleet is talked to: from the line of this number on, through this door.
#[derive(Clone, Copy)]
pub(crate) struct Entrance<'a> {
    pub(crate) first: u64,
    pub(crate) door: &'a Door,
}

/// Answers the line that was just read, which has the entrance's number, and all lines that follow.
pub(crate) fn go_on<R: Alloc<A = Global>, I: Read, W: Write, S: ChapterSink>(
    rt: &R,
    fleet: &mut OpenFleet,
    ends: &mut Ends<I, W, S>,
    bytes: &mut Vec<u8>,
    pen: &mut Pen,
    entrance: Entrance<'_>,
) -> Result<(), TalkFault>
    requires { AreRoomyFor fleet.old.session.world.core.floor entrance.door.now.roominess.items }
    ensures talks { OnOk result (IfSome (reader_remaining I.remaining ends.old.input) (λ xs. (text : List ℕ)
        × Talks pen.old.settings.roll (fleet_of fleet.old) (acts_from pen.old.settings entrance.entry.door.now.refused.marks.items entrance.entry.first (bytes.old.items ∷ heard_lines xs)) text (fleet_of fleet.new)
        × Says (W.contents ends.old.output) (W.contents ends.new.output) pen.old.out.items pen.new.out.items text)) }
    ensures kept { OnOk result (KeepsTurned (S.kept ends.old.sink) (S.kept ends.new.sink) (talk fleet.old.session) (talk fleet.new.session)) }
    ensures broken { IfErr result (λ fault. IfSome (reader_remaining I.remaining ends.old.input) (λ xs.
        TalksUntil fault pen.old.settings.roll (fleet_of fleet.old) (acts_from pen.old.settings entrance.entry.door.now.refused.marks.items entrance.entry.first (bytes.old.items ∷ heard_lines xs))
        (W.contents ends.old.output) (W.contents ends.new.output) pen.old.out.items pen.new.out.items)) }
    ensures logged { OnOk result (IfSome (reader_remaining I.remaining ends.old.input) (λ xs. AllBacked pen.old.settings.roll (fleet_of fleet.old) (fleet_of fleet.new) (acts_from pen.old.settings entrance.entry.door.now.refused.marks.items entrance.entry.first (bytes.old.items ∷ heard_lines xs))
        (W.contents ends.old.output) (W.contents ends.new.output) pen.old.out.items (S.journal ends.old.sink) (S.journal ends.new.sink))) }
    ensures cut { IfErr result (λ fault. fault ≡ TalkFault.Output → IfSome (reader_remaining I.remaining ends.old.input) (λ xs. PartBacked pen.old.settings.roll (fleet_of fleet.old) (acts_from pen.old.settings entrance.entry.door.now.refused.marks.items entrance.entry.first (bytes.old.items ∷ heard_lines xs))
        (W.contents ends.old.output) (W.contents ends.new.output) pen.old.out.items (S.journal ends.old.sink) (S.journal ends.new.sink))) }
{
    for number in entrance.first..u64::MAX {
        let line = line_let_in(&entrance.door.refused, number, bytes);
        if is_quit(line.asked) {
            return Ok(());
        }
        answer(rt, fleet, ends, pen, line, &entrance.door.roominess)?;
        tell_if_due(&fleet.session, ends, pen)?;
        if !next_line(&mut ends.input, pen, bytes)? {
            return Ok(());
        }
    }
    Err(TalkFault::Input)
}
