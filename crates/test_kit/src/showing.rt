//! What a row's calls showed.

ghost use Rattle.std.specs.Prelude.{◌≡◌, ◌↔◌, IsTrue, string_bytes};

/// What the calls of a row answered in the end, and what its world held then.
#[derive(Drop)]
pub struct Showing {
    /// A line for each call.
    pub answers: String,
    /// All that the world held, in words.
    pub held: String,
}

impl Showing {
    /// Whether the calls answered the same, and the worlds held the same.
    pub fn is_like(&self, other: &Showing) -> bool
        ensures alike { IsTrue result ↔
            ((string_bytes self.now.answers ≡ string_bytes other.now.answers)
            × (string_bytes self.now.held ≡ string_bytes other.now.held)) }
    {
        self.answers.as_bytes() == other.answers.as_bytes() && self.holds_like(other)
    }

    /// Whether the worlds held the same.
    pub fn holds_like(&self, other: &Showing) -> bool
        ensures held { IsTrue result ↔ (string_bytes self.now.held ≡ string_bytes other.now.held) }
    {
        self.held.as_bytes() == other.held.as_bytes()
    }
}
