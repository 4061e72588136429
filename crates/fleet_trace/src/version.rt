//! The versions of the form of traces.

/// A version of the form of traces.
#[derive(Clone, Copy, Debug, PartialEq, Eq)]
pub enum Version {
    /// Version 1: no errand is withdrawn.
    First,
    /// Version 2, in which traces are written: it has withdrawals, with their verdicts.
    Second,
}
