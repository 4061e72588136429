//! Tests of changes of a site.
#![tactic(auto)]

#[cfg(test)]
mod chain;
#[cfg(test)]
mod changes;
#[cfg(test)]
mod faults;
#[cfg(test)]
mod sites;
