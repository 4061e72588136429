//! Where each client's thread can be delayed.

/// Called in each client's thread before each of its lines.
pub trait Gate {
    /// The client, from 0, is about to run this line of its own, counted from 1.
    fn before(&self, client: u32, line: u32);
}
