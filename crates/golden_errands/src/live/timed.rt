//! A reader of lines that are written when it is time.

use crate::live::clock::Paced;
use fleet_map::text::{first_word, number_up_to};
use std::io::{self, Read};
use std::thread::{self, Threads};
use std::time::{Clock, Duration};
use test_kit::cut_line;

/// How often a thread looks whether others are as far as a case says, a millisecond apart.
const MOST_LOOKS: u32 = 10_000;

/// How often the clock is read at most until the fleet waits for its next deadline, after the clock was moved: by a
/// read that began before it was moved, three times until a wait is seen to have ended, by the step that makes the
/// turn, after the turn, by the next step, and as that begins to wait. If the clock were moved sooner, the time after
/// a turn could be later than the next deadline, which is then left out.
const MOST_READS: u64 = 8;

/// The text before the next line that begins so.
fn before_line<'a>(text: &'a [u8], start: &[u8]) -> &'a [u8] {
    let mut rest = text;
    for _line in 0..text.len() {
        let (_, after) = cut_line(rest);
        if after.starts_with(start) {
            return text
                .get(..text.len().saturating_sub(after.len()))
                .unwrap_or(text);
        }
        rest = after;
    }
    text
}

/// The number with which a line begins, if it does with one, and what follows.
fn number_of(line: &[u8]) -> (Option<u64>, &[u8]) {
    match first_word(line) {
        Some((word, rest)) => (number_up_to(word, 1 << 32), rest),
        None => (None, &[]),
    }
}

/// What a line `~ COUNT MICROS`, or `~ COUNT`, says.
#[derive(Clone, Copy)]
struct Mark {
    /// How many lines are to be printed first.
    lines: u64,
    /// By how many microseconds the clock is moved.
    micros: Option<u64>,
    /// How many bytes come after the line.
    left: usize,
}

/// What the first line of a text says, if it begins with `~`.
fn mark_of(text: &[u8]) -> Option<Mark> {
    let told = text.strip_prefix(b"~ ")?;
    let (line, after) = cut_line(told);
    let (lines, rest) = number_of(line);
    Some(Mark {
        lines: lines.unwrap_or(0),
        micros: number_of(rest).0,
        left: after.len(),
    })
}

/// Reads a text. A line `~ COUNT MICROS` is no part of it: what follows is read once COUNT more lines were printed than
/// at the last such line, the fleet waits, and the clock was moved on by that many microseconds. A line `~ COUNT` only
/// waits for the lines.
#[derive(Drop)]
pub(crate) struct Timed<R> {
    paced: Paced<R>,
    bytes: Vec<u8>,
    /// How many bytes were read.
    at: usize,
    /// How many lines are to be printed before the clock is moved.
    lines: u64,
}

impl<R: Clock + Threads> Timed<R> {
    pub(crate) fn new(paced: Paced<R>, bytes: Vec<u8>) -> Timed<R> {
        Timed {
            paced,
            bytes,
            at: 0,
            lines: 0,
        }
    }

    /// Waits until that many lines were printed.
    fn wait_for_lines(&self) {
        for _ in 0..MOST_LOOKS {
            if self.paced.hands.lines() >= self.lines {
                return;
            }
            thread::sleep(&self.paced.rt, Duration::from_millis(1));
        }
    }

    /// Waits until the fleet has read the clock so often that it has nothing to do at this time.
    fn wait_for_reads(&self) {
        let read = self.paced.hands.reads();
        for _ in 0..MOST_LOOKS {
            if self.paced.hands.reads().saturating_sub(read) >= MOST_READS {
                return;
            }
            thread::sleep(&self.paced.rt, Duration::from_millis(1));
        }
    }

    /// What the line at this place says, if it begins with `~`.
    fn next_mark(&self) -> Option<Mark> {
        let rest = self.bytes.get(self.at..).unwrap_or(&[]);
        mark_of(rest)
    }

    /// Does what the lines `~` at this place say.
    fn heed(&mut self) {
        for _line in 0..self.bytes.len() {
            let Some(mark) = self.next_mark() else {
                return;
            };
            self.at = self.bytes.len().saturating_sub(mark.left);
            self.lines = self.lines.saturating_add(mark.lines);
            self.wait_for_lines();
            if let Some(micros) = mark.micros {
                self.wait_for_reads();
                self.paced.hands.pass(micros);
            }
        }
    }
}

impl<R: Clock + Threads> Read for Timed<R> {
    fn read(&mut self, buf: &mut [u8]) -> io::Result<usize> {
        self.heed();
        let rest = before_line(self.bytes.get(self.at..).unwrap_or(&[]), b"~ ");
        let most = rest.len().min(buf.len());
        for (place, byte) in buf.iter_mut().zip(rest) {
            *place = *byte;
        }
        self.at = self.at.saturating_add(most);
        Ok(most)
    }
}
