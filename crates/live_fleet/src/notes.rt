//! What there is to know of a client's posts.

/// A client's posts in this life of the fleet.
#[derive(Clone, Copy, Debug, PartialEq, Eq)]
pub struct Note {
    /// Whether it posted a close.
    pub closed: bool,
    /// The number of its last order.
    pub last: u64,
}
