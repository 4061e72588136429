//! Tests of the crates that know cells and are below the world: grids, fields, bridges, the check of a step, goals, the
//! step, the planner, and the bound on waits.
#![tactic(auto)]

#[cfg(test)]
mod all_bridges;
#[cfg(test)]
mod bridges;
#[cfg(test)]
mod checks;
#[cfg(test)]
mod doors;
#[cfg(test)]
mod fields;
#[cfg(test)]
mod floor;
#[cfg(test)]
mod goals;
#[cfg(test)]
mod grids;
#[cfg(test)]
mod lendings;
#[cfg(test)]
mod plans;
#[cfg(test)]
mod room_sides;
#[cfg(test)]
mod rooms;
#[cfg(test)]
mod roomy;
#[cfg(test)]
mod squares;
#[cfg(test)]
mod steps;
#[cfg(test)]
mod survey_texts;
#[cfg(test)]
mod surveys;
#[cfg(test)]
mod waits;
