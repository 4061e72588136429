//! A short function that uses each library, as a program could. Their `CALLING.md` pages quote them.
#![tactic(auto)]

mod bridges;
mod checks;
mod distances;
mod errands;
mod executions;
mod floors;
mod lanes;
mod limits;
mod maps;
mod pages;
mod plans;
mod reopenings;
mod roomy;
mod runs;
mod scripts;
mod surveys;
mod traces;
mod worlds;

pub use bridges::{has_no_bridge, is_roomy};
pub use checks::is_safe;
pub use distances::field_to;
pub use errands::add_errand;
pub use executions::{left_after, moves_to_send, plan_step, steps_behind};
pub use floors::can_walk;
pub use lanes::send;
pub use limits::with_queue;
pub use maps::sides_of;
pub use pages::page_of;
pub use plans::{is_still_valid, is_valid};
pub use reopenings::go_on;
pub use roomy::may_block;
pub use runs::history_after;
pub use scripts::robots_in;
pub use surveys::roomy_count;
pub use traces::is_legal;
pub use worlds::order;
