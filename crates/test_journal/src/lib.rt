//! Tests of journals: written and read, cut anywhere, and with lines that tell nothing.
#![tactic(auto)]

#[cfg(test)]
mod cuts;
#[cfg(test)]
mod faults;
#[cfg(test)]
mod texts;
