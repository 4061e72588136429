//! The bound on waits of robots that take turns in rooms, for whole histories and chapter after chapter: the laws of `turns_law`, read of
//! legal histories whose ticks are planned in turns. The functions do nothing.
#![tactic(auto)]

mod law;
#[cfg(test)]
mod tests;

pub use law::{
    entries_keep_turns, histories_are_fleets, limits_by_span, served_errands_arrive,
    served_waits_are_bounded,
};
