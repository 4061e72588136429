//! What is told of a list of cells.

/// Cells of which it is told for how many robots all are roomy.
#[derive(Clone, Copy, Debug)]
pub struct Listed {
    /// How many cells.
    pub count: u64,
    /// For how many robots, as `roomy_for` says it.
    pub roomy_for: u32,
}
