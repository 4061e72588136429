//! Figures of a fleet's run, computed from its traces: throughput, service times, waits, detours, stands and refusals,
//! as text, as JSON and as tables.
#![tactic(auto)]

mod answer;
mod away;
mod chapters;
mod errands;
mod fault;
mod figures;
mod follow;
mod later;
mod law;
mod left;
mod lines;
mod measure;
mod notes;
mod pages;
mod ranks;
mod rows;
mod spread;
mod tables;
mod tallies;
mod tick;

pub use answer::{StatsForm, stats};
pub use fault::StatsFault;
pub use later::{LaterFigures, figures_after};
pub use law::figures_are_counts;
pub use ranks::{Ranks, ranked};
