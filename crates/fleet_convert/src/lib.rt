//! Traces as plans in the forms of other planners' tools, and plans as traces.
#![tactic(auto)]

mod cells;
mod conversion;
mod history;
mod law;
mod listing;
mod moves;
mod runners;
mod shown;
mod step;
mod tracing;

pub use cells::cells_plan;
pub use conversion::{ConvertFault, PlanForm, convert};
pub use history::places_in;
pub use law::{cells_read_back, legal_places_are_a_plan, moves_read_back, plan_traces_have_places};
pub use listing::{Listing, listed_plan};
pub use moves::moves_plan;
pub use runners::runners_plan;
pub use shown::trace_of_invalid;
pub use tracing::{TracingFault, trace_of_plan};
