//! Tests of the records of a site's changes.
#![tactic(auto)]

#[cfg(test)]
mod lines;
#[cfg(test)]
mod making;
#[cfg(test)]
mod texts;
