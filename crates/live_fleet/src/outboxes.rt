//! What was said and handed out, and is not taken yet.

ghost use Rattle.std.specs.Prelude.{◌≡◌, ◌≤◌, ◌<◌, ◌↔◌, [], ◌++◌, IsTrue, IfOk, OnOk, map, replicate, slice_set, vec_len};
ghost use Rattle.live_fleet.specs.Out.{Fits, IsFull, out_of, text_at};

use fleet_history::Chapter;
use std::alloc::{AllocError, Global};

/// How much text may wait for the reader of a conversation. A text that has no room in it waits until its reader has
/// taken enough, and is longer only where it is a single answer.
pub const MOST_TEXT: usize = 65_536;

/// No notice has a longer line.
const MOST_NOTICE: usize = 256;

/// The texts that wait for the readers of the conversations, and the chapters that were handed out.
#[derive(Drop)]
pub struct Outboxes {
    /// By conversation.
    pub texts: Vec<Vec<u8>>,
    /// In order.
    pub chapters: Vec<Chapter>,
}

impl Outboxes {
    /// Nothing waits for any of this many conversations.
    pub fn new(alloc: Global, conversations: usize) -> Result<Outboxes, AllocError>
        ensures texts { IfOk result (λ o. (out_of o).texts ≡ replicate conversations []) }
        ensures chapters { IfOk result (λ o. (out_of o).chapters ≡ []) }
    {
        Ok(Outboxes {
            texts: empty_texts(alloc, conversations)?,
            chapters: Vec::new(alloc),
        })
    }

    /// Whether a text of this length may be said to a conversation.
    pub fn fits(&self, to: usize, len: usize) -> bool
        requires { to < vec_len self.now.texts }
        ensures { IsTrue result ↔ Fits (text_at (out_of self.now) to) len }
    {
        let waits = self.texts[to].len();
        waits == 0 || (waits <= MOST_TEXT && len <= MOST_TEXT - waits)
    }

    /// Whether no notice is told to a conversation, since there might be no room for it.
    pub fn is_full(&self, to: usize) -> bool
        requires { to < vec_len self.now.texts }
        ensures { IsTrue result ↔ IsFull (text_at (out_of self.now) to) }
    {
        self.texts[to].len() > MOST_TEXT - MOST_NOTICE
    }

    /// Says a text to a conversation.
    pub(crate) fn say(&mut self, to: usize, text: &[u8]) -> Result<(), AllocError>
        requires { to < vec_len self.old.texts }
        ensures texts { OnOk result ((out_of self.new).texts ≡ slice_set (out_of self.old).texts to (text_at (out_of self.old) to ++ text.now)) }
        ensures chapters { self.new.chapters ≡ self.old.chapters }
        ensures count { vec_len self.new.texts ≡ vec_len self.old.texts }
    {
        self.texts[to].extend_from_slice(text)
    }

    /// Takes what waits for a conversation away: its reader has it.
    pub fn take_text(&mut self, to: usize)
        requires { to < vec_len self.old.texts }
        ensures texts { (out_of self.new).texts ≡ slice_set (out_of self.old).texts to [] }
        ensures chapters { self.new.chapters ≡ self.old.chapters }
        ensures count { vec_len self.new.texts ≡ vec_len self.old.texts }
    {
        self.texts[to].clear();
    }
}

/// Empty texts.
fn empty_texts(alloc: Global, count: usize) -> Result<Vec<Vec<u8>>, AllocError>
    ensures { IfOk result (λ texts. map (λ t. t.items) texts.items ≡ replicate count []) }
{
    let mut texts = Vec::with_capacity(alloc, count)?;
    for _i in 0..count {
        texts.push_reserved(Vec::new(alloc));
    }
    Ok(texts)
}
