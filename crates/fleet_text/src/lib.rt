//! Formats runs, traces, maps and refusals as text; reads and writes whole texts, with any readers and writers; the
//! hooks that a script chooses from.
#![tactic(auto)]

mod answers;
mod input;
mod kit;
mod look;
mod maps;
mod output;
mod pieces;
mod reporting;
mod runs;
mod said;
mod texts;
mod ticks;
mod trace;

pub use answers::{
    bad_line, chapter_line, chapter_refused_line, ended_line, no_client_line, no_room_line,
    notice_line, open_text, post_text, shut_text, tick_refused_line, watch_line,
};
pub use input::{InputFault, read_other, read_up_to, read_whole};
pub use kit::HookKit;
pub use look::{Standing, look_line};
pub use maps::map_report;
pub use output::write_whole;
pub use pieces::{Piece, whole, write_pieces};
pub use reporting::report;
pub use runs::{is_limit_met, write_event};
pub use said::{Complaint, Said, failure_line, faulty, line_of, map_complaint};
pub use ticks::tick_line;
pub use trace::trace_line;
