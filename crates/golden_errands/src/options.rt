//! Options of a conversation's test case: lines `+ OPTION` before the lines of the conversation.

use fleet_lib::KeptText;
use std::alloc::{AllocError, Global};
use test_kit::{Block, cut_line};

/// A conversation, and how it is held.
#[derive(Clone, Copy)]
pub(crate) struct Conversation<'a> {
    pub(crate) name: &'a str,
    /// The options, one a line, each after `+ `.
    pub(crate) options: &'a [u8],
    pub(crate) lines: &'a [u8],
}

/// The length of the lines at the front of the text that begin so.
fn length_of_options(text: &[u8]) -> usize {
    let mut rest = text;
    for _line in 0..text.len() {
        if !rest.starts_with(b"+ ") {
            break;
        }
        rest = cut_line(rest).1;
    }
    text.len().saturating_sub(rest.len())
}

impl<'a> Conversation<'a> {
    /// The conversation of a block.
    pub(crate) fn of(block: Block<'a>) -> Conversation<'a> {
        let Block { name, text } = block;
        let (options, lines) = text.split_at(length_of_options(text).min(text.len()));
        Conversation {
            name,
            options,
            lines,
        }
    }

    /// How many of its options are this one.
    pub(crate) fn count(self, wanted: &[u8]) -> u64 {
        let mut count = 0u64;
        let mut rest = self.options;
        for _line in 0..self.options.len() {
            let (line, after) = cut_line(rest);
            if line == wanted {
                count = count.saturating_add(1);
            }
            rest = after;
        }
        count
    }

    /// Whether this is one of its options.
    pub(crate) fn has(self, wanted: &[u8]) -> bool {
        self.count(wanted) > 0
    }

    /// What comes after this start in the first of its options that begins so.
    pub(crate) fn after(self, start: &[u8]) -> Option<&'a [u8]> {
        let mut rest = self.options;
        for _line in 0..self.options.len() {
            let (line, after) = cut_line(rest);
            if let Some(told) = line.strip_prefix(start) {
                return Some(told);
            }
            rest = after;
        }
        None
    }

    /// The file of the chapter that the fleet goes on from, by an option `+ kept N TEXT` with one digit N.
    pub(crate) fn kept(self) -> Option<KeptText<'a>> {
        let (digit, told) = self.after(b"+ kept ")?.split_first()?;
        Some(KeptText {
            name: "kept.json",
            number: u32::from(digit.saturating_sub(b'0')),
            text: told.strip_prefix(b" ").unwrap_or(told),
        })
    }

    /// The number of the first chapter that is kept.
    pub(crate) fn first_chapter(self) -> u64 {
        match self.kept() {
            Some(text) => u64::from(text.number) + 1,
            None => 0,
        }
    }

    /// The lines that its options `START LINE` have, each with its line feed.
    pub(crate) fn lines_after(self, alloc: Global, start: &[u8]) -> Result<Vec<u8>, AllocError> {
        let mut lines = Vec::new(alloc);
        let mut rest = self.options;
        for _line in 0..self.options.len() {
            let (line, after) = cut_line(rest);
            if let Some(told) = line.strip_prefix(start) {
                lines.extend_from_slice(told.strip_prefix(b" ").unwrap_or(told))?;
                lines.push(b'\n')?;
            }
            rest = after;
        }
        Ok(lines)
    }

    /// The file of header lines that its options `+ script LINE` have.
    pub(crate) fn script(self, alloc: Global) -> Result<Vec<u8>, AllocError> {
        self.lines_after(alloc, b"+ script")
    }
}
