//! The result of a run.

ghost use Rattle.std.specs.Prelude.{◌≡◌, ◌↔◌, IsTrue, string_bytes};

/// What a run came to that was not refused memory.
#[derive(Drop)]
pub struct Ending {
    /// A line for each reply.
    pub replies: String,
    /// The trace of its chapter.
    pub trace: String,
}

impl Ending {
    /// Whether two runs came to the same.
    pub fn is_like(&self, other: &Ending) -> bool
        ensures alike { IsTrue result ↔
            ((string_bytes self.now.replies ≡ string_bytes other.now.replies)
            × (string_bytes self.now.trace ≡ string_bytes other.now.trace)) }
    {
        self.replies.as_bytes() == other.replies.as_bytes()
            && self.trace.as_bytes() == other.trace.as_bytes()
    }
}
