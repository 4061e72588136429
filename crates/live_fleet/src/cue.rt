//! What a fleet hears of.

/// What is to be done.
#[derive(Clone, Copy)]
pub enum Cue<'a> {
    /// A line of a conversation, without its line feed: its first bytes, one more than it may have.
    Line { from: usize, line: &'a [u8] },
    /// There may be room for what a conversation is to be told.
    Room { to: usize },
    /// What is left of a conversation's answer is to go on.
    Rest { from: usize },
    /// Of the turns that are left for a conversation no more than one is to be made.
    Last { from: usize },
    /// A turn is due.
    Turn,
    /// The chapter is due.
    Due,
    /// The chapter of this number was kept, or waits to be.
    Kept { chapter: u32 },
    /// The fleet is to end.
    End,
}
