//! What is left of a conversation's answer.

ghost use Rattle.std.specs.Prelude.{◌≡◌};
ghost use Rattle.live_fleet.specs.Open.{is_done, is_ending, is_open, turns_left};
ghost use Rattle.live_fleet.specs.Ending.{stays_at_end};
ghost use Rattle.live_fleet.specs.Resting.{count_in};

use crate::robots::RobotRow;
use fleet_core::OpenErrand;

/// What is listed.
#[derive(Drop)]
pub enum Rows {
    /// A client's open errands.
    Errands {
        client: u32,
        errands: Vec<OpenErrand>,
    },
    /// The robots, by number.
    Robots(Vec<RobotRow>),
}

impl Rows {
    /// How many they are.
    pub(crate) fn count(&self) -> usize
        ensures { result ≡ count_in self.now }
    {
        match self {
            Rows::Errands { client: _, errands } => errands.len(),
            Rows::Robots(robots) => robots.len(),
        }
    }
}

/// A list, and how many of its rows were said.
#[derive(Drop)]
pub struct Listing {
    pub mark: Option<Vec<u8>>,
    pub rows: Rows,
    pub listed: usize,
}

/// What is left of the answer to a conversation's last line. No line of it is heard before that is done.
#[derive(Drop)]
pub enum Rest {
    Nothing,
    /// An answer that waits for room.
    Line(Vec<u8>),
    /// This number of turns is to be made; the answer is the last one's.
    Ticking {
        mark: Option<Vec<u8>>,
        left: u32,
    },
    /// A list that is told line by line.
    Listing(Listing),
    /// A chapter was handed out, with this number of entries, which is to be kept first.
    Keeping {
        mark: Option<Vec<u8>>,
        chapter: u32,
        entries: usize,
    },
    /// The fleet has ended. What is left is told.
    Ending,
    /// The fleet has ended, and all is said.
    Ended,
}

impl Rest {
    /// Whether notices may be told now: no answer waits for room.
    pub fn is_open(&self) -> bool
        ensures { result ≡ is_open self.now }
    {
        match self {
            Rest::Nothing | Rest::Ticking { .. } | Rest::Keeping { .. } | Rest::Ending => true,
            Rest::Line(_) | Rest::Listing(_) | Rest::Ended => false,
        }
    }

    /// Whether nothing is left.
    pub fn is_done(&self) -> bool
        ensures { result ≡ is_done self.now }
    {
        matches!(self, Rest::Nothing)
    }

    /// How many turns are to be made for it.
    pub(crate) fn turns_left(&self) -> Option<u32>
        ensures { result ≡ turns_left self.now }
    {
        match self {
            Rest::Ticking { left, .. } => Some(*left),
            _ => None,
        }
    }

    /// Whether it stays as it is at the end: an answer that waits for room is said yet, and where all was said nothing
    /// is left.
    pub(crate) fn stays_at_end(&self) -> bool
        ensures { result ≡ stays_at_end self.now }
    {
        matches!(self, Rest::Line(_) | Rest::Listing(_) | Rest::Ended)
    }

    /// Whether what is left at the end is told.
    pub(crate) fn is_ending(&self) -> bool
        ensures { result ≡ is_ending self.now }
    {
        matches!(self, Rest::Ending)
    }
}
