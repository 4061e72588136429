//! The result of the program `errands`.

ghost use Rattle.std.specs.Prelude.{◌≡◌, ◌↔◌, IsTrue, [], codes};

/// What the program wrote, and its status.
#[derive(Drop)]
pub struct Outcome {
    /// The status that it ended with.
    pub status: u8,
    /// What it wrote to its output.
    pub output: Vec<u8>,
    /// What it wrote to its error writer.
    pub complaint: Vec<u8>,
}

impl Outcome {
    /// What the program complains of a file.
    pub const FILE_COMPLAINT: &'static [u8] = b"errands: file\n";

    /// Whether a file failed before anything was written.
    pub fn is_file_fault(&self) -> bool
        ensures status { IsTrue result → self.now.status ≡ 3 }
        ensures output { IsTrue result → self.now.output.items ≡ [] }
        ensures complaint { IsTrue result → self.now.complaint.items ≡ codes "errands: file\n" }
        ensures fault { self.now.status ≡ 3 → self.now.output.items ≡ [] →
            self.now.complaint.items ≡ codes "errands: file\n" → IsTrue result }
    {
        self.status == 3
            && self.output.is_empty()
            && self.complaint.as_slice() == Outcome::FILE_COMPLAINT
    }

    /// Whether the same came out.
    pub fn is_like(&self, wanted: &Outcome) -> bool
        ensures alike { IsTrue result ↔
            ((self.now.status ≡ wanted.now.status)
            × (self.now.output.items ≡ wanted.now.output.items)
            × (self.now.complaint.items ≡ wanted.now.complaint.items)) }
    {
        self.status == wanted.status
            && self.output == wanted.output
            && self.complaint == wanted.complaint
    }
}
