//! How long robots wait.

/// The longest wait, and the limit of all waits.
#[derive(Clone, Copy, Debug, PartialEq, Eq)]
pub struct WaitReport {
    /// How many ticks the eldest robot has waited; `None` if no robot has an errand.
    pub longest: Option<u64>,
    /// A number of ticks that no wait reaches, whatever is posted. `None` on a map with a bridge.
    pub limit: Option<u64>,
}
