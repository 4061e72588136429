//! Test cases of conversations.

use crate::options::Conversation;
use std::alloc::{AllocError, Global};

/// A ring of eight cells.
const RING: &[u8] = b"type octile\nheight 3\nwidth 3\nmap\n...\n.@.\n...\n";

/// A line of three cells, with two bridges.
const LINE: &[u8] = b"type octile\nheight 1\nwidth 3\nmap\n...\n";

/// A map whose row is too short.
const BAD: &[u8] = b"type octile\nheight 1\nwidth 3\nmap\n..\n";

/// A conversation on a map, and how it is held.
#[derive(Clone, Copy)]
pub(crate) struct Case<'a> {
    pub(crate) talk: Conversation<'a>,
    pub(crate) map: &'a [u8],
    pub(crate) marks: bool,
    /// Where full chapters are handed out unasked, the bytes that the text of one may have.
    pub(crate) roll: Option<u64>,
    pub(crate) roomy: bool,
    pub(crate) has_trials: bool,
    pub(crate) lines: &'a [u8],
}

/// Where chapters are handed out unasked, the bytes that the text of one may have: by an option `+ bytes N`, and 64 MiB by
/// `+ roll`.
fn most_bytes(talk: Conversation<'_>) -> Option<u64> {
    match talk.after(b"+ bytes ") {
        Some(word) => str::from_utf8(word).ok()?.parse().ok(),
        None => if talk.has(b"+ roll") {
            Some(64 << 20)
        } else {
            None
        },
    }
}

impl<'a> Case<'a> {
    /// The case of a conversation.
    pub(crate) fn of(talk: Conversation<'a>) -> Case<'a> {
        let lines = if talk.has(b"+ cut") {
            &talk.lines[..talk.lines.len().saturating_sub(1)]
        } else {
            talk.lines
        };
        let map = if talk.has(b"+ map line") {
            LINE
        } else if talk.has(b"+ map bad") {
            BAD
        } else {
            RING
        };
        Case {
            talk,
            map,
            marks: talk.has(b"+ marks"),
            roll: most_bytes(talk),
            roomy: talk.has(b"+ roomy"),
            has_trials: talk.has(b"+ trials"),
            lines,
        }
    }

    /// The file of header lines that the case has.
    pub(crate) fn script(self, alloc: Global) -> Result<Vec<u8>, AllocError> {
        self.talk.script(alloc)
    }
}
