//! An event of a run with its reply.

ghost use Rattle.std.specs.Prelude.{◌≤◌};

use crate::reply::Reply;
use fleet_book::Event;

/// An event with its reply, and how often both came one after another.
#[derive(Clone, Copy, Debug, PartialEq, Eq)]
pub struct Answered {
    pub event: Event,
    pub reply: Reply,
    pub times: u32,
    ghost some: { 1 ≤ times },
}
