//! The word `talk`.

ghost use Rattle.std.specs.Prelude.{◌≡◌, ◌≤◌, IfOk, IfErr, length};
ghost use Rattle.std.specs.Io.Buffered.{reader_remaining};
ghost use Rattle.std.specs.Option.{option_map};
ghost use Rattle.fleet_talk.specs.Heading.{drafted};
ghost use Rattle.fleet_lib.specs.Ended.{IsTalk, file_shown};
ghost use Rattle.fleet_lib.specs.Talk.{Complains, IsGround, IsGroundFault, complaint_of};

use crate::ending::tell_end;
use crate::holding::hold;
use crate::kept::KeptText;
use crate::said::fail;
use fleet_grid::Grid;
use fleet_map::{MapFault, read_map};
use fleet_script::{Head, ScriptFault};
use fleet_talk::{ChapterSink, Ends, Settings, TalkFault, read_head};
use fleet_text::{Complaint, InputFault, write_whole};
use std::alloc::{Alloc, AllocError, Global};
use std::io::{Read, Write};

/// The map and the header lines that a conversation begins with, and the chapter that its fleet goes on from, if it
/// does.
#[derive(Clone, Copy, Debug)]
pub struct TalkTexts<'a> {
    pub map: &'a [u8],
    pub script: &'a [u8],
    pub kept: Option<KeptText<'a>>,
}

/// Prints on the error writer what is wrong. Returns the status.
pub(crate) fn complain<E: Write>(alloc: Global, complaint: Complaint, error: &mut E) -> u8
    ensures { Complains complaint (E.contents error.old) (E.contents error.new) result }
{
    match format!(in alloc; "fleet: {complaint}\n") {
        Ok(line) => {
            write_whole(error, line.as_bytes());
            complaint.status()
        }
        Err(AllocError) => fail(InputFault::NoMemory, error),
    }
}

/// The complaint about a conversation that broke off.
pub(crate) fn complaint_of(fault: TalkFault) -> Complaint
    ensures { result ≡ complaint_of fault }
{
    match fault {
        TalkFault::Input | TalkFault::Output | TalkFault::Sink => Complaint::File,
        TalkFault::Opening(fault) => Complaint::Opening(fault),
        TalkFault::NoRooms => Complaint::Rooms,
        TalkFault::NoMemory => Complaint::Memory,
    }
}

/// The map and the head of the texts.
pub(crate) fn grounds(alloc: Global, texts: TalkTexts<'_>) -> Result<(Grid, Head), Complaint>
    requires { length texts.script.now ≤ 16777216 }
    ensures ground { IfOk result (λ r. IsGround texts.entry.map.now texts.entry.script.now r.0 (drafted r.1)) }
    ensures fault { IfErr result (IsGroundFault texts.entry.map.now texts.entry.script.now) }
{
    let map = match read_map(alloc, texts.map) {
        Ok(map) => map,
        Err(MapFault::NoMemory) => return Err(Complaint::Memory),
        Err(fault) => return Err(Complaint::Map(fault)),
    };
    let head = match read_head(alloc, texts.script) {
        Ok(head) => head,
        Err(ScriptFault::NoMemory) => return Err(Complaint::Memory),
        Err(ScriptFault::Line(line)) => return Err(Complaint::Script(line)),
    };
    match Grid::new(map) {
        Ok(grid) => Ok((grid, head)),
        Err(AllocError) => Err(Complaint::Memory),
    }
}

/// Holds a conversation on the map. Returns the status: 0 good, 3 a line could not be read, or an answer or a chapter
/// not written, 4 the map, 5 the script or the opening, 6 the chapter to go on from is refused, 7 out of memory, 8 a
/// limit was met.
pub fn run_talk<R: Alloc<A = Global>, I: Read, W: Write, S: ChapterSink, E: Write>(
    rt: &R,
    texts: TalkTexts<'_>,
    settings: Settings,
    ends: &mut Ends<I, W, S>,
    error: &mut E,
) -> u8
    requires { length texts.script.now ≤ 16777216 }
    ensures { IsTalk texts.entry.map.now texts.entry.script.now (option_map file_shown texts.entry.kept) settings (reader_remaining I.remaining ends.old.input)
        (W.contents ends.old.output) (W.contents ends.new.output) (record { old = S.kept ends.old.sink; new = S.kept ends.new.sink })
        (E.contents error.old) (E.contents error.new) result }
{
    let alloc = rt.alloc();
    match grounds(alloc, texts) {
        Ok(ground) => {
            let ended = hold(rt, ground, texts.kept, settings, ends);
            tell_end(alloc, texts, ended, error)
        }
        Err(complaint) => complain(alloc, complaint, error),
    }
}
