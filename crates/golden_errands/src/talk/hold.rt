//! Holds a conversation with readers and writers that may fail.

use super::case::Case;
use super::tray::Tray;
use fleet_lib::{Ends, Manner, Settings, TalkTexts, run_talk};
use std::alloc::{Alloc, AllocError, Global};
use std::io::BufReader;
use test_kit::{Room, Sink, Source};

/// How a conversation is read, written and kept.
#[derive(Clone, Copy)]
pub(crate) struct Streams {
    /// How many bytes each read gives, and how many reads are good.
    pub(crate) step: usize,
    pub(crate) good_reads: u64,
    pub(crate) output: Room,
    /// How many chapters there is room for.
    pub(crate) chapters: u64,
}

impl Streams {
    /// Streams that do not fail.
    pub(crate) const GOOD: Streams = Streams {
        step: 65_536,
        good_reads: 1 << 40,
        output: Room::ALL,
        chapters: 1 << 40,
    };
}

/// The result of a conversation.
#[derive(Drop)]
pub(crate) struct Outcome {
    pub(crate) output: Vec<u8>,
    pub(crate) status: u8,
    pub(crate) complaint: Vec<u8>,
    /// How many chapters were kept.
    pub(crate) chapters: u64,
}

impl Outcome {
    /// Whether all that was written and the status are the same.
    pub(crate) fn is_like(&self, other: &Outcome) -> bool {
        self.status == other.status
            && self.output.as_slice() == other.output.as_slice()
            && self.complaint.as_slice() == other.complaint.as_slice()
    }

    /// Whether a file failed after this was written.
    pub(crate) fn is_cut_to(&self, output: &[u8]) -> bool {
        self.status == 3
            && self.complaint.as_slice() == b"fleet: file\n".as_slice()
            && self.output.as_slice() == output
    }
}

/// The ends of a conversation by these streams, whose lines are these, and whose chapters have numbers from `first` on.
fn ends_of(
    alloc: Global,
    streams: Streams,
    lines: &[u8],
    first: u64,
) -> Result<Ends<Source<'_>, Sink, Tray>, AllocError> {
    let source = Source {
        bytes: lines,
        line_feeds: 0,
        step: streams.step,
        good_reads: streams.good_reads,
    };
    let Ok(input) = BufReader::new(alloc, source) else {
        return Err(AllocError);
    };
    Ok(Ends {
        input,
        output: Sink::new(alloc, streams.output),
        sink: Tray {
            first,
            taken: 0,
            room: streams.chapters,
        },
    })
}

/// The result of a case by these streams, whose lines are these.
pub(crate) fn outcome_of<R: Alloc<A = Global>>(
    rt: &R,
    case: Case<'_>,
    streams: Streams,
    lines: &[u8],
) -> Result<Outcome, AllocError> {
    let alloc = rt.alloc();
    let script = case.script(alloc)?;
    if script.len() > 16_777_216 {
        return Err(AllocError);
    }
    let mut ends = ends_of(alloc, streams, lines, case.talk.first_chapter())?;
    let texts = TalkTexts {
        map: case.map,
        script: &script,
        kept: case.talk.kept(),
    };
    let settings = Settings {
        marks: case.marks,
        roll: case.roll,
        roomy: case.roomy,
        manner: Manner::Plain,
    };
    let mut error = Sink::new(alloc, Room::ALL);
    let status = run_talk(rt, texts, settings, &mut ends, &mut error);
    let chapters = ends.sink.taken;
    Ok(Outcome {
        output: ends.output.bytes,
        status,
        complaint: error.bytes,
        chapters,
    })
}
