//! Traces: every chapter can be written as text, read back, and judged by its history.
#![tactic(auto)]

mod chapters;
mod fault;
mod judging;
mod law;
mod part;
mod pieces;
mod read;
mod replayed;
mod version;
mod write;

pub use chapters::read_chapters;
pub use fault::{ChaptersFault, JudgeFault, TraceFault};
pub use judging::{is_early, judge, landings_after, opening_fault, verdict_after};
pub use law::{trace_reads_back, write_and_read};
pub use part::{FormPart, OpeningPart};
pub use pieces::{entry_told, opening_told, push_entry, push_opening};
pub use read::{form_fault, read_trace};
pub use replayed::state_after;
pub use version::Version;
pub use write::write_trace;
