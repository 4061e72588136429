//! What the book counts of one client.

/// A client's counts.
#[derive(Clone, Copy, Debug, PartialEq, Eq)]
pub struct Account {
    /// Errands accepted in all.
    pub accepted: u64,
    /// Unfinished errands: accepted, and neither arrived nor withdrawn.
    pub owed: u64,
    /// Whether the client's Close was carried out.
    pub closed: bool,
}

impl Account {
    /// The account of a client at the opening.
    pub const BLANK: Account = Account {
        accepted: 0,
        owed: 0,
        closed: false,
    };
}
