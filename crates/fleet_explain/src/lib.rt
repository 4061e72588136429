//! What is wrong with a map, a script, a trace or a plan, in sentences.
#![tactic(auto)]

mod arrival;
mod detail;
mod entry;
mod explanation;
mod farewell;
mod head;
mod head_text;
mod keyword;
mod law;
mod limits;
mod line;
mod opening;
mod plan;
mod plan_text;
mod position;
mod script_text;
mod served;
mod stamp;
mod text;
mod trace_text;
mod verdict;

pub use arrival::ArrivalName;
pub use detail::Detail;
pub use entry::EntryKind;
pub use explanation::{Explanation, explain_map, explain_script, explain_trace};
pub use head::{HeadExplanation, HeadLineFault, explain_head};
pub use keyword::Keyword;
pub use law::sentence_tells_place;
pub use limits::{LimitFault, LimitKind};
pub use line::LineFault;
pub use opening::StartFault;
pub use plan::{Misplaced, PlanExplanation, explain_plan};
pub use position::Position;
pub use stamp::RobotStamp;
