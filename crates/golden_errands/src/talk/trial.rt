//! Trials of a case: its reader, its writer and its sink fail, each in turn.

use super::case::Case;
use super::hold::{Outcome, Streams, outcome_of};
use std::alloc::{Alloc, AllocError, Global};
use test_kit::{Full, Room};

/// What is tried.
#[derive(Clone, Copy)]
pub(crate) enum Trial {
    /// Reads of one byte: the same comes out.
    ByteByByte,
    /// Each read of a byte fails in turn, the one that finds the end too: the answers to the whole lines before it
    /// stand.
    EachRead,
    /// Each write of a byte fails in turn, and so do those that follow: the bytes before it stand.
    EachWrite,
    /// The same, but the writes that follow would be good: nothing more is written.
    EachWriteOnce,
    /// Each write takes no byte in turn: the bytes before it stand.
    EachEmptyWrite,
    /// Each chapter is not kept in turn: what was said before stands.
    EachChapter,
}

impl Trial {
    pub(crate) const ALL: [Trial; 6] = [
        Trial::ByteByByte,
        Trial::EachRead,
        Trial::EachWrite,
        Trial::EachWriteOnce,
        Trial::EachEmptyWrite,
        Trial::EachChapter,
    ];

    pub(crate) fn name(self) -> &'static str {
        match self {
            Trial::ByteByByte => "read byte by byte",
            Trial::EachRead => "each read fails",
            Trial::EachWrite => "each write fails",
            Trial::EachWriteOnce => "each write fails once",
            Trial::EachEmptyWrite => "each write takes no byte",
            Trial::EachChapter => "each chapter is not kept",
        }
    }
}

/// The text up to its last line feed.
fn whole_lines(text: &[u8]) -> &[u8] {
    match text.iter().rposition(|byte| *byte == b'\n') {
        Some(last) => &text[..last.saturating_add(1).min(text.len())],
        None => &[],
    }
}

fn each_read<R: Alloc<A = Global>>(rt: &R, case: Case<'_>) -> Result<bool, AllocError> {
    let mut named = true;
    for good_reads in 0..=case.lines.len() {
        let streams = Streams {
            step: 1,
            good_reads: good_reads as u64,
            ..Streams::GOOD
        };
        let met = outcome_of(rt, case, streams, case.lines)?;
        let read = whole_lines(&case.lines[..good_reads]);
        let whole = outcome_of(rt, case, Streams::GOOD, read)?;
        named &= if whole.status == 5 {
            met.is_like(&whole)
        } else {
            met.is_cut_to(&whole.output)
        };
    }
    Ok(named)
}

fn each_write<R: Alloc<A = Global>>(
    rt: &R,
    case: Case<'_>,
    wanted: &Outcome,
    full: Full,
) -> Result<bool, AllocError> {
    let mut named = true;
    for writes in 0..wanted.output.len() {
        let streams = Streams {
            output: Room {
                writes: writes as u64,
                full,
            },
            ..Streams::GOOD
        };
        let met = outcome_of(rt, case, streams, case.lines)?;
        named &= met.is_cut_to(&wanted.output[..writes]);
    }
    Ok(named)
}

fn each_chapter<R: Alloc<A = Global>>(
    rt: &R,
    case: Case<'_>,
    wanted: &Outcome,
) -> Result<bool, AllocError> {
    let mut named = true;
    for chapters in 0..wanted.chapters {
        let streams = Streams {
            chapters,
            ..Streams::GOOD
        };
        let met = outcome_of(rt, case, streams, case.lines)?;
        named &= met.chapters == chapters
            && wanted.output.starts_with(&met.output)
            && met.is_cut_to(&met.output);
    }
    Ok(named)
}

/// Whether a conversation ends as it should in this trial.
pub(crate) fn is_good<R: Alloc<A = Global>>(
    rt: &R,
    case: Case<'_>,
    wanted: &Outcome,
    trial: Trial,
) -> Result<bool, AllocError> {
    match trial {
        Trial::ByteByByte => {
            let streams = Streams {
                step: 1,
                ..Streams::GOOD
            };
            Ok(outcome_of(rt, case, streams, case.lines)?.is_like(wanted))
        }
        Trial::EachRead => each_read(rt, case),
        Trial::EachWrite => each_write(rt, case, wanted, Full::Fails),
        Trial::EachWriteOnce => each_write(rt, case, wanted, Full::FailsOnce),
        Trial::EachEmptyWrite => each_write(rt, case, wanted, Full::TakesNone),
        Trial::EachChapter => each_chapter(rt, case, wanted),
    }
}
