//! Arguments that several words have.

use command_words::{Argument, Kind};

/// A map.
pub(crate) const MAP: Argument<'static> = Argument {
    name: "MAP",
    kind: Kind::File,
    help: "A map",
};

/// Header lines.
pub(crate) const SCRIPT: Argument<'static> = Argument {
    name: "SCRIPT",
    kind: Kind::OptionalFile,
    help: "Header lines of a script",
};

/// To refuse posts to cells that are not roomy.
pub(crate) const ROOMY: Argument<'static> = Argument {
    name: "roomy",
    kind: Kind::Flag,
    help: "Refuse posts to cells that are not roomy",
};

/// How ticks are planned.
pub(crate) const PLANNER: Argument<'static> = Argument {
    name: "planner",
    kind: Kind::Value("NAME"),
    help: "How ticks are planned: plain, or turns (robots take turns in dead ends)",
};

/// A folder.
pub(crate) const TRACES: Argument<'static> = Argument {
    name: "traces",
    kind: Kind::Value("DIR"),
    help: "Write each chapter into this folder, as chapter-N.json",
};

/// To keep a journal.
pub(crate) const JOURNAL: Argument<'static> = Argument {
    name: "journal",
    kind: Kind::Flag,
    help: "Tell nothing before it is on the disk, so that it stands",
};

/// How long the text of a chapter may be.
pub(crate) const CHAPTER_BYTES: Argument<'static> = Argument {
    name: "chapter-bytes",
    kind: Kind::Value("N"),
    help: "Begin the next chapter at N bytes of text; 67108864 if not given",
};

/// To go on, and never to begin anew.
pub(crate) const RESUME_ONLY: Argument<'static> = Argument {
    name: "resume-only",
    kind: Kind::Flag,
    help: "As --resume; end with status 3 if there is no chapter",
};

/// To go on.
pub(crate) const RESUME: Argument<'static> = Argument {
    name: "resume",
    kind: Kind::Flag,
    help: "Go on from the last chapter of --traces; begin anew if there is none",
};

/// The form in which a plan is read.
pub(crate) const FORM: Argument<'static> = Argument {
    name: "form",
    kind: Kind::Value("FORM"),
    help: "Read the plan as lines, bare, agents, table, yaml, lorr, or lorr-planner",
};
