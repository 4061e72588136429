//! Tests of the crates that do not know cells: texts of maps, queues, books, lanes, scripts, hooks, and the rows of
//! histories.
#![tactic(auto)]

#[cfg(test)]
mod books;
#[cfg(test)]
mod hooks;
#[cfg(test)]
mod lanes;
#[cfg(test)]
mod maps;
#[cfg(test)]
mod memory;
#[cfg(test)]
mod queues;
#[cfg(test)]
mod rows;
#[cfg(test)]
mod scripts;
