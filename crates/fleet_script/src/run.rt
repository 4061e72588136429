//! An event line of a script.

ghost use Rattle.std.specs.Prelude.{◌≤◌};

use fleet_book::Event;

/// An event of a script, how often it happens, and its line, from 1.
#[derive(Clone, Copy, Debug, PartialEq, Eq)]
pub struct Run {
    pub event: Event,
    pub times: u32,
    pub line: u32,
    ghost some: { 1 ≤ times },
}
