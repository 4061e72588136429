//! What the program prints of a run, in pieces.

ghost use Rattle.std.specs.Prelude.{◌≡◌, ◌++◌, List, [], IfOk, OnOk, string_bytes, replicate};
ghost use Rattle.fleet_book.specs.declared.event.Event.{Event as AnEvent};
ghost use Rattle.fleet_world.specs.declared.reply.Reply.{Reply as AReply};
ghost use Rattle.fleet_world.specs.Answers.{events_in, replies_in};
ghost use Rattle.fleet_text.specs.Output.{entries_made, run_text};
ghost use Rattle.fleet_text.specs.Pieces.{repeated, pieces_text};
ghost use Rattle.fleet_text.specs.inside.Draft.{draft_text};

use crate::pieces::Piece;
use crate::runs::{entries_after, made_by, write_event};
use fleet_history::Entry;
use fleet_world::Answered;
use std::alloc::{AllocError, Global};

/// How many equal lines a piece that repeats has.
const LINES: u32 = 8;

/// Pieces, and the text that comes after them.
#[derive(Drop)]
struct Draft {
    pieces: Vec<Piece>,
    text: String,
}

/// Adds the lines of an answer, each time's, to a text. Returns the entries that are left.
fn write_answer<'a>(
    out: &mut String,
    answer: Answered,
    times: u32,
    entries: &'a [Entry],
) -> Result<&'a [Entry], AllocError>
    ensures { IfOk result (λ rest. (es : List AnEvent) → (rs : List AReply) → string_bytes out.new ++ run_text es rs rest.now ≡ string_bytes out.old ++ run_text (replicate times answer.event ++ es) (replicate times answer.reply ++ rs) entries.now) }
{
    let mut rest = entries;
    for time in 0..times {
        let _ = time;
        write_event(out, answer.event, answer.reply, rest.first())?;
        rest = entries_after(rest, answer.reply);
    }
    Ok(rest)
}

impl Draft {
    /// Closes the text with a piece of its own, and starts a new one.
    fn cut(&mut self, alloc: Global) -> Result<(), AllocError>
        ensures text { OnOk result (string_bytes self.new.text ≡ []) }
        ensures pieces { OnOk result (pieces_text self.new.pieces.items ≡ pieces_text self.old.pieces.items ++ string_bytes self.old.text) }
    {
        let text = std::mem::replace(&mut self.text, String::new(alloc));
        self.pieces.push(Piece { text, times: 1 })?;
        Ok(())
    }

    /// Adds a piece that repeats.
    fn add_piece(&mut self, alloc: Global, text: String, times: u32) -> Result<(), AllocError>
        ensures text { OnOk result (string_bytes self.new.text ≡ []) }
        ensures pieces { OnOk result (pieces_text self.new.pieces.items ≡ pieces_text self.old.pieces.items ++ string_bytes self.old.text ++ repeated times (string_bytes text)) }
    {
        self.cut(alloc)?;
        self.pieces.push(Piece { text, times })?;
        Ok(())
    }

    /// Adds the lines of an answer that made no entry.
    fn repeat(
        &mut self,
        alloc: Global,
        answer: Answered,
        entries: &[Entry],
    ) -> Result<(), AllocError>
        requires { entries_made answer.reply ≡ 0 }
        ensures { OnOk result ((es : List AnEvent) → (rs : List AReply) → draft_text self.new ++ run_text es rs entries.now
            ≡ draft_text self.old ++ run_text (replicate answer.times answer.event ++ es) (replicate answer.times answer.reply ++ rs) entries.now) }
    {
        write_answer(&mut self.text, answer, answer.times % LINES, entries)?;
        let mut lines = String::new(alloc);
        write_answer(&mut lines, answer, LINES, entries)?;
        self.add_piece(alloc, lines, answer.times / LINES)?;
        Ok(())
    }

    /// Adds the lines of an answer. Returns the entries that are left.
    fn add<'a>(
        &mut self,
        alloc: Global,
        answer: Answered,
        entries: &'a [Entry],
    ) -> Result<&'a [Entry], AllocError>
        ensures { IfOk result (λ rest. (es : List AnEvent) → (rs : List AReply) → draft_text self.new ++ run_text es rs rest.now
            ≡ draft_text self.old ++ run_text (replicate answer.times answer.event ++ es) (replicate answer.times answer.reply ++ rs) entries.now) }
    {
        if answer.times > LINES && made_by(answer.reply) == 0 {
            self.repeat(alloc, answer, entries)?;
            return Ok(entries);
        }
        write_answer(&mut self.text, answer, answer.times, entries)
    }
}

/// What the program prints of a run: the lines of its events, by their replies and by the entries that they made. It
/// takes memory for the answers, and not for each event of an answer that made no entry.
pub fn report(
    alloc: Global,
    answers: &[Answered],
    entries: &[Entry],
) -> Result<Vec<Piece>, AllocError>
    ensures { IfOk result (λ pieces. pieces_text pieces.items ≡ run_text (events_in answers.now) (replies_in answers.now) entries.now) }
{
    let mut draft = Draft {
        pieces: Vec::new(alloc),
        text: String::new(alloc),
    };
    let mut rest = entries;
    for at in 0..answers.len() {
        rest = draft.add(alloc, answers[at], rest)?;
    }
    draft.cut(alloc)?;
    Ok(draft.pieces)
}
