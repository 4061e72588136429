//! The parts of an opening, and of a trace's text, that can be at fault.

/// A part of an opening that is not in order. Robots and clients are numbered from 0.
#[derive(Clone, Copy, Debug, PartialEq, Eq)]
pub enum OpeningPart {
    /// The number of robots is not from 1 to 512.
    Robots,
    /// The number of clients is not from 1 to 64.
    Clients,
    /// How many errands a robot may have is not from 1 to 65,536.
    Queue,
    /// How many errands a client may have accepted is not from 1 to 2^40.
    Life,
    /// The robots do not stand on distinct floor cells.
    Cells,
    /// What is known of this robot is not in order: its laws of stamps, its wait, or its errands.
    Robot(u32),
    /// What is known of this client is not in order: its orders taken, errands accepted and notices made.
    Client(u32),
    /// The names of this client's errands are not in order: two robots have errands with one number, or the numbers on
    /// a robot do not rise.
    Names(u32),
}

/// A part of a JSON text that is not in the form of a trace.
#[derive(Clone, Copy, Debug, PartialEq, Eq)]
pub enum FormPart {
    /// The value is not an object with an integer under `version`.
    Value,
    /// Its keys are not exactly `version`, `chapter`, `opening` and `entries`.
    Members,
    /// What is under `chapter` is not a number from 0 to 4,294,967,295.
    Chapter,
    /// What is under `opening` is not in its form.
    Opening,
    /// There is no array under `entries`.
    Entries,
    /// This entry, counted from 1, is the first that is not in its form.
    Entry(u64),
}
