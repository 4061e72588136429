//! Shows traces: a page that replays a trace, and a picture of it, both as text.
#![tactic(auto)]

mod arrivals;
mod cells;
mod chapters;
mod ending;
mod fault;
mod frame;
mod law;
mod logs;
mod many;
mod page;
mod pair;
mod picture;
mod placed;
mod runs;
mod script;
mod shapes;
mod verdict;
mod view;
mod walls;

pub use fault::ViewFault;
pub use law::{input_ends_no_element, runs_end_no_element};
pub use logs::{is_log, log_page};
pub use many::many_page;
pub use page::page_of;
pub use pair::{RunFault, pair_page};
pub use picture::picture_of;
pub use verdict::{ChapterVerdict, judge_chapters};
pub use view::{view_page, view_picture};
