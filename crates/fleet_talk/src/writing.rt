//! When what was said is written.

ghost use Rattle.std.specs.Prelude.{◌≡◌, ◌≤◌, List, [], OnOk, IfErr, true};
ghost use Rattle.std.specs.declared.alloc.Global.{Global};
ghost use Rattle.std.specs.Io.Buffered.{reader_buffer};
ghost use Rattle.fleet_text.specs.Transfer.{AppendsPrefix};
ghost use Rattle.fleet_talk.specs.Backed.{BacksUp, Stands, Tells};
ghost use Rattle.fleet_talk.specs.Broken.{SaysUntil};
ghost use Rattle.fleet_talk.specs.Chapters.{ChapterView, chapter_in};
ghost use Rattle.fleet_talk.specs.Due.{IsDone, has_line};
ghost use Rattle.fleet_talk.specs.Says.{Says};

use crate::ends::{ChapterSink, Ends};
use crate::fault::TalkFault;
use crate::pen::Pen;
use fleet_world::Session;
use std::io::{Read, Write};

/// Writes what was said.
fn write_now<W: Write>(pen: &mut Pen, output: &mut W) -> Result<(), TalkFault>
    ensures says { OnOk result (Says (W.contents output.old) (W.contents output.new) pen.old.out.items pen.new.out.items []) }
    ensures broken { IfErr result (λ fault. SaysUntil fault (W.contents output.old) (W.contents output.new) pen.old.out.items pen.new.out.items []) }
    ensures waits { pen.new.out.items ≡ [] }
    ensures settings { pen.new.settings ≡ pen.old.settings }
    ensures prefix { AppendsPrefix (W.contents output.old) (W.contents output.new) pen.old.out.items }
    ensures mute { pen.old.is_mute ≡ true → W.contents output.new ≡ W.contents output.old }
{
    if pen.write_out(output) {
        Ok(())
    } else {
        Err(TalkFault::Output)
    }
}

/// Whether a whole line is among the bytes.
fn has_line(bytes: &[u8]) -> bool
    ensures { result ≡ has_line bytes.now }
{
    bytes.iter().any(|byte| *byte == b'\n')
}

/// Writes the answers if no whole line is in the reader's buffer, or if much text waits.
pub(crate) fn write_if_due<I: Read, W: Write, S>(
    ends: &mut Ends<I, W, S>,
    pen: &mut Pen,
) -> Result<(), TalkFault>
    ensures says { OnOk result (Says (W.contents ends.old.output) (W.contents ends.new.output) pen.old.out.items pen.new.out.items []) }
    ensures broken { IfErr result (λ fault. SaysUntil fault (W.contents ends.old.output) (W.contents ends.new.output) pen.old.out.items pen.new.out.items []) }
    // So no answer waits while the next line has to be waited for.
    ensures done { IsDone (reader_buffer ends.old.input) pen.new.out.items }
    ensures settings { pen.new.settings ≡ pen.old.settings }
    ensures input { ends.new.input ≡ ends.old.input }
    ensures sink { ends.new.sink ≡ ends.old.sink }
{
    if has_line(ends.input.buffer()) && !pen.is_full() {
        return Ok(());
    }
    write_now(pen, &mut ends.output)
}

/// Has the sink bring down all entries of the fleet's chapter, if something waits to be written. Where it cannot, nothing
/// is written any more.
pub(crate) fn back_up<S: ChapterSink>(session: &Session, sink: &mut S, pen: &mut Pen)
    requires { 0 ≤ session.now.world.core.number }
    ensures kept { S.kept sink.new ≡ S.kept sink.old }
    ensures out { pen.new.out.items ≡ pen.old.out.items }
    ensures settings { pen.new.settings ≡ pen.old.settings }
    ensures backs_up { (chapters : List (ChapterView Global)) → Stands (S.journal sink.old) chapters (chapter_in session.now.world.core)
        → BacksUp (S.journal sink.old) (S.journal sink.new) chapters (chapter_in session.now.world.core) pen.old.out.items pen.new.is_mute }
{
    if !pen.out.is_empty() && !sink.log(session.world.chapter()) {
        pen.is_mute = true;
    }
}

/// Writes what was said of an open fleet, once the sink has the entries that it follows from.
fn tell_now<I, W: Write, S: ChapterSink>(
    session: &Session,
    ends: &mut Ends<I, W, S>,
    pen: &mut Pen,
) -> Result<(), TalkFault>
    requires { 0 ≤ session.now.world.core.number }
    ensures says { OnOk result (Says (W.contents ends.old.output) (W.contents ends.new.output) pen.old.out.items pen.new.out.items []) }
    ensures broken { IfErr result (λ fault. SaysUntil fault (W.contents ends.old.output) (W.contents ends.new.output) pen.old.out.items pen.new.out.items []) }
    ensures waits { pen.new.out.items ≡ [] }
    ensures settings { pen.new.settings ≡ pen.old.settings }
    ensures input { ends.new.input ≡ ends.old.input }
    ensures kept { S.kept ends.new.sink ≡ S.kept ends.old.sink }
    ensures tells { (chapters : List (ChapterView Global)) → Stands (S.journal ends.old.sink) chapters (chapter_in session.now.world.core)
        → Tells (S.journal ends.old.sink) (S.journal ends.new.sink) chapters (chapter_in session.now.world.core) (W.contents ends.old.output) (W.contents ends.new.output) pen.old.out.items }
{
    back_up(session, &mut ends.sink, pen);
    write_now(pen, &mut ends.output)
}

/// The same, if much waits.
pub(crate) fn tell_if_full<I, W: Write, S: ChapterSink>(
    session: &Session,
    ends: &mut Ends<I, W, S>,
    pen: &mut Pen,
) -> Result<(), TalkFault>
    requires { 0 ≤ session.now.world.core.number }
    ensures says { OnOk result (Says (W.contents ends.old.output) (W.contents ends.new.output) pen.old.out.items pen.new.out.items []) }
    ensures broken { IfErr result (λ fault. SaysUntil fault (W.contents ends.old.output) (W.contents ends.new.output) pen.old.out.items pen.new.out.items []) }
    ensures settings { pen.new.settings ≡ pen.old.settings }
    ensures input { ends.new.input ≡ ends.old.input }
    ensures kept { S.kept ends.new.sink ≡ S.kept ends.old.sink }
    ensures tells { (chapters : List (ChapterView Global)) → Stands (S.journal ends.old.sink) chapters (chapter_in session.now.world.core)
        → Tells (S.journal ends.old.sink) (S.journal ends.new.sink) chapters (chapter_in session.now.world.core) (W.contents ends.old.output) (W.contents ends.new.output) pen.old.out.items }
{
    if !pen.is_full() {
        return Ok(());
    }
    tell_now(session, ends, pen)
}

/// The same, if no whole line is in the reader's buffer, or if much text waits.
pub(crate) fn tell_if_due<I: Read, W: Write, S: ChapterSink>(
    session: &Session,
    ends: &mut Ends<I, W, S>,
    pen: &mut Pen,
) -> Result<(), TalkFault>
    requires { 0 ≤ session.now.world.core.number }
    ensures says { OnOk result (Says (W.contents ends.old.output) (W.contents ends.new.output) pen.old.out.items pen.new.out.items []) }
    ensures broken { IfErr result (λ fault. SaysUntil fault (W.contents ends.old.output) (W.contents ends.new.output) pen.old.out.items pen.new.out.items []) }
    // So no answer waits while the next line has to be waited for.
    ensures done { IsDone (reader_buffer ends.old.input) pen.new.out.items }
    ensures settings { pen.new.settings ≡ pen.old.settings }
    ensures input { ends.new.input ≡ ends.old.input }
    ensures kept { S.kept ends.new.sink ≡ S.kept ends.old.sink }
    ensures tells { (chapters : List (ChapterView Global)) → Stands (S.journal ends.old.sink) chapters (chapter_in session.now.world.core)
        → Tells (S.journal ends.old.sink) (S.journal ends.new.sink) chapters (chapter_in session.now.world.core) (W.contents ends.old.output) (W.contents ends.new.output) pen.old.out.items }
{
    if has_line(ends.input.buffer()) {
        return tell_if_full(session, ends, pen);
    }
    tell_now(session, ends, pen)
}
