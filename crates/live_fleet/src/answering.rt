//! Answers to lines.

ghost use Rattle.std.specs.Prelude.{◌≡◌, ◌≤◌, ◌<◌, IfOk, OnOk, vec_len};
ghost use Rattle.fleet_talk.specs.Said.{under};
ghost use Rattle.fleet_talk.specs.Says.{marked};
ghost use Rattle.live_fleet.specs.Answering.{AnswersIn, mark_kept};
ghost use Rattle.live_fleet.specs.Out.{out_of};
ghost use Rattle.live_fleet.specs.Party.{resting};

use crate::outboxes::Outboxes;
use crate::rest::Rest;
use crate::speaker::Speaker;
use fleet_talk::add_marked;
use std::alloc::{AllocError, Global};

/// The lines of a text under a mark.
pub(crate) fn marked_text(
    alloc: Global,
    mark: Option<&[u8]>,
    text: &str,
) -> Result<Vec<u8>, AllocError>
    ensures { IfOk result (λ line. line.items ≡ marked (under mark.entry) text.now) }
{
    let mut line = Vec::new(alloc);
    add_marked(&mut line, mark, text.as_bytes())?;
    Ok(line)
}

/// Says lines to a conversation, or lets them wait until there is room.
pub(crate) fn answer_with(
    out: &mut Outboxes,
    speaker: &mut Speaker,
    to: usize,
    line: Vec<u8>,
) -> Result<(), AllocError>
    requires { to < vec_len out.old.texts }
    ensures ok { OnOk result (AnswersIn to line.items (out_of out.old) (out_of out.new) speaker.new.rest) }
    ensures same { speaker.new ≡ resting speaker.old speaker.new.rest }
    ensures count { vec_len out.new.texts ≡ vec_len out.old.texts }
{
    if out.fits(to, line.len()) {
        speaker.rest = Rest::Nothing;
        out.say(to, &line)
    } else {
        speaker.rest = Rest::Line(line);
        Ok(())
    }
}

/// Says an answer to a conversation, or lets it wait until there is room.
pub(crate) fn answer(
    alloc: Global,
    out: &mut Outboxes,
    speaker: &mut Speaker,
    to: usize,
    mark: Option<&[u8]>,
    text: &str,
) -> Result<(), AllocError>
    requires { to < vec_len out.old.texts }
    ensures ok { OnOk result (AnswersIn to (marked (under mark.entry) text.now) (out_of out.old) (out_of out.new) speaker.new.rest) }
    ensures same { speaker.new ≡ resting speaker.old speaker.new.rest }
    ensures count { vec_len out.new.texts ≡ vec_len out.old.texts }
{
    let line = marked_text(alloc, mark, text)?;
    answer_with(out, speaker, to, line)
}

/// A mark that is kept.
pub(crate) fn kept_mark(alloc: Global, mark: Option<&[u8]>) -> Result<Option<Vec<u8>>, AllocError>
    ensures { IfOk result (λ kept. mark_kept kept ≡ under mark.entry) }
{
    match mark {
        Some(mark) => Ok(Some(Vec::from_slice(alloc, mark)?)),
        None => Ok(None),
    }
}

/// A mark that was kept.
pub(crate) fn mark_in(mark: &Option<Vec<u8>>) -> Option<&[u8]>
    ensures { under result ≡ mark_kept mark.now }
{
    match mark {
        Some(mark) => Some(mark.as_slice()),
        None => None,
    }
}
