//! The floor of a map as a graph: cells, neighbours and parts; and the definitions of walks, distances, bridges,
//! placements and conflict-free steps that all crates above use.
#![tactic(auto)]

mod cells;
mod counts;
mod dir;
mod grid;
mod law;
mod letters;
mod outlook;
mod padded;
mod parts;
mod placement;
mod turns;
mod ways;

pub use dir::Dir;
pub use grid::Grid;
pub use law::{
    distance_is_least_walk, distances_across_an_edge, edges_are_counted_once, edges_lead_both_ways,
    neighbours_differ_by_one, walks_join_and_turn,
};
pub use outlook::Outlook;
pub use padded::{FAR, WALL, place_of};
pub use placement::is_placement;
pub use ways::Ways;
