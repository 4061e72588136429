//! What a map offers for a number of robots: its bridges, the cells that are roomy and those that are not, its dead
//! ends, for how many robots all cells of a list are roomy, and for which errands the promises on waits are.
#![tactic(auto)]

mod answer;
mod around;
mod cells;
mod chosen;
mod ends;
mod fault;
mod json;
mod least;
mod listed;
mod mend;
mod opened;
mod owners;
mod page;
mod peel;
mod picture;
mod prune;
mod served;
mod standing;
mod survey;
mod text;

pub use answer::{SurveyForm, survey_text};
pub use cells::read_cells;
pub use chosen::unroomy_list;
pub use ends::DeadEnd;
pub use fault::{CellsFault, SurveyFault};
pub use json::survey_json;
pub use least::roomy_for;
pub use listed::Listed;
pub use mend::{Mending, mended};
pub use page::{mending_lines, survey_lines};
pub use picture::survey_picture;
pub use prune::pruned;
pub use served::served_for;
pub use standing::Standing;
pub use survey::{Survey, survey_of};
pub use text::map_text;
