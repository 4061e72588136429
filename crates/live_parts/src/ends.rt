//! Where a fleet's lines come from, and where its output goes.

use crate::recalls::Recalls;
use fleet_talk::Manner;

/// How a fleet is kept.
#[derive(Clone, Copy, Debug, PartialEq, Eq)]
pub struct LiveSettings {
    /// The microseconds between two turns; `None` if turns are made only when a line asks for one.
    pub period: Option<u32>,
    /// The microseconds after which a chapter is handed out at the latest; `None` if that is done only where one is
    /// full or a line asks for it.
    pub keep_every: Option<u32>,
    /// The bytes that a chapter's text has at most, but for one turn's entries.
    pub chapter_bytes: u64,
    /// Whether the first conversation watches from the start.
    pub watch: bool,
    /// Whether the fleet goes on where the first conversation has no more lines.
    pub service: bool,
    /// Whether posts to cells that are not roomy for the fleet's robots are refused.
    pub roomy: bool,
    /// How the ticks of the fleet are planned.
    pub manner: Manner,
    /// The version of the program.
    pub version: &'static str,
}

/// The pipes of a client that has its own.
#[derive(Drop)]
pub struct Pipes<P, Q> {
    pub input: P,
    pub output: Q,
}

/// The reader and the writer of the first conversation, the pipes of clients 0, 1, .., the writer of the counts, the
/// writer that takes all figures at once, each second anew, the sink of the chapters, the journal, if one is written, and
/// what clients were told before.
#[derive(Drop)]
pub struct LiveEnds<I, W, P, Q, E, S, J> {
    pub input: I,
    pub output: W,
    pub pipes: Vec<Pipes<P, Q>>,
    pub counts: E,
    pub figures: Option<E>,
    pub sink: S,
    pub journal: Option<J>,
    pub recalls: Recalls,
}
