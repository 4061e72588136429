//! A conversation with a fleet: header lines first, then each line is answered as soon as it is read.
#![tactic(auto)]

mod ask;
mod conversation;
mod doing;
mod door;
mod ends;
mod fault;
mod going;
mod ground;
mod heading;
mod input_line;
mod law;
mod line_part;
mod listed;
mod long;
mod look;
mod manner;
mod marks;
mod open_fleet;
mod opening;
mod pen;
mod plays;
mod reading;
mod resuming;
mod resumption;
mod writing;

pub use ask::{Asked, Line, line_of};
pub use conversation::converse;
pub use door::{Door, UnroomyErrand, counted, door_for, line_let_in, unroomy_line};
pub use ends::{ChapterSink, Ends, Settings, SinkFault};
pub use fault::TalkFault;
pub use ground::{Ground, MOST_LINE, MOST_ROBOTS, TALK_LIMITS};
pub use heading::read_head;
pub use input_line::{LineFault, read_line};
pub use law::{a_conversation_is_a_run, a_head_is_by_its_lines, a_script_is_a_run};
pub use look::look_text;
pub use manner::planned;
pub use marks::add_marked;
pub use mover::Manner;
pub use resuming::{ResumeFault, world_with_door};
pub use resumption::resume;
