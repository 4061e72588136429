//! The result of a serve.

use crate::serves::yard::{FLOOR, Yard};
use fleet_book::{Event, Notice, Verdict};
use fleet_grid::Grid;
use fleet_history::{Chapter, Entry};
use fleet_script::Script;
use fleet_serve::Served;
use fleet_trace::{JudgeFault, TraceFault, judge, read_trace, write_trace};
use std::alloc::{AllocError, Global};

/// The result of a serve.
#[derive(Clone, Copy)]
pub(crate) struct Came {
    /// The script's clients and lines, and those lines that are posts.
    pub(crate) clients: u32,
    pub(crate) lines: u64,
    pub(crate) posts: u64,
    /// Posts that met a full lane.
    pub(crate) lane_full: u64,
    pub(crate) ticks: u64,
    /// Orders taken, errands accepted and withdrawn, and arrivals.
    pub(crate) takes: u64,
    pub(crate) accepted: u64,
    pub(crate) withdrawn: u64,
    pub(crate) arrivals: u64,
    /// Whether the office handed out a map with the sides and the floor of the one that it was given.
    pub(crate) same_map: bool,
    /// Whether the trace, as it is printed, reads and is legal.
    pub(crate) legal: bool,
    /// Whether what each client was left with is the end of its notices.
    pub(crate) told: bool,
}

/// Whether the map has the yard's sides and floor.
fn is_map_of(yard: &Yard, map: &Grid) -> bool {
    if yard.sides != (map.height(), map.width()) {
        return false;
    }
    let mut cell = 0u32;
    for letter in yard.letters {
        if cell >= map.cell_count() || map.is_floor(cell) != (*letter == FLOOR) {
            return false;
        }
        cell += 1;
    }
    cell == map.cell_count()
}

/// Whether the trace of the chapter, as it is printed, reads and is legal on the map.
fn is_legal(alloc: Global, map: &Grid, chapter: &Chapter) -> Result<bool, AllocError> {
    let text = write_trace(alloc, chapter)?;
    match read_trace(alloc, text.as_bytes()) {
        Ok(chapter) => match judge(alloc, map, &chapter) {
            Ok(()) => Ok(true),
            Err(JudgeFault::NoMemory) => Err(AllocError),
            Err(JudgeFault::Illegal { .. }) => Ok(false),
        },
        Err(TraceFault::NoMemory) => Err(AllocError),
        Err(_) => Ok(false),
    }
}

/// How many notices the chapter makes for the client.
fn notices_of(chapter: &Chapter, own: u32) -> u64 {
    let mut count = 0u64;
    for entry in &chapter.entries {
        match entry {
            Entry::Take { client, .. } if *client == own => count = count.saturating_add(1),
            Entry::Tick { arrived, .. } => {
                for arrival in arrived.as_slice() {
                    if arrival.client == own {
                        count = count.saturating_add(1);
                    }
                }
            }
            _ => {}
        }
    }
    count
}

fn number_of(notice: Notice) -> u64 {
    match notice {
        Notice::Verdict { seq, .. } | Notice::Arrived { seq, .. } => seq,
    }
}

/// Whether these are the last of this many notices, each once and in order.
fn are_last(rest: &[Notice], count: u64) -> bool {
    let mut last = count;
    for notice in rest.iter().rev() {
        if last == 0 || number_of(*notice) != last {
            return false;
        }
        last -= 1;
    }
    true
}

/// Whether what each client was left with is the end of its notices.
fn are_told(chapter: &Chapter, rest: &[Vec<Notice>]) -> bool {
    if rest.len() != chapter.opening.clients.len() {
        return false;
    }
    let mut client = 0u32;
    for notices in rest {
        if !are_last(notices, notices_of(chapter, client)) {
            return false;
        }
        client = client.saturating_add(1);
    }
    true
}

/// How many of the events are posts.
fn posts_of(events: &[Event]) -> u64 {
    let mut posts = 0u64;
    for event in events {
        if let Event::Post(..) = event {
            posts = posts.saturating_add(1);
        }
    }
    posts
}

impl Came {
    /// What the serve of a script on a yard came to.
    pub(crate) fn of(
        alloc: Global,
        yard: &Yard,
        script: &Script,
        served: &Served,
    ) -> Result<Came, AllocError> {
        let last = &served.last;
        let mut came = Came {
            clients: script.clients,
            lines: script.events.len() as u64,
            posts: posts_of(&script.events),
            lane_full: u64::from(served.lane_full),
            ticks: last.tick,
            takes: 0,
            accepted: 0,
            withdrawn: 0,
            arrivals: 0,
            same_map: is_map_of(yard, &last.grid),
            legal: is_legal(alloc, &last.grid, &last.chapter)?,
            told: are_told(&last.chapter, &last.rest),
        };
        for entry in &last.chapter.entries {
            came.count(entry);
        }
        Ok(came)
    }

    /// Counts one more entry.
    fn count(&mut self, entry: &Entry) {
        match entry {
            Entry::Take { verdict, .. } => {
                self.takes = self.takes.saturating_add(1);
                match verdict {
                    Verdict::Accepted(_) => self.accepted = self.accepted.saturating_add(1),
                    Verdict::Withdrawn => self.withdrawn = self.withdrawn.saturating_add(1),
                    _ => {}
                }
            }
            Entry::Tick { arrived, .. } => {
                self.arrivals = self.arrivals.saturating_add(arrived.len() as u64);
            }
            Entry::Shut { .. } => {}
        }
    }

    /// Errands that have neither arrived nor been withdrawn.
    pub(crate) fn unfinished(&self) -> u64 {
        self.accepted
            .saturating_sub(self.arrivals)
            .saturating_sub(self.withdrawn)
    }

    /// Whether each of the script's posts, none of which stands after a close of its client, is accounted for.
    pub(crate) fn is_accounted(&self) -> bool {
        self.told && self.takes.saturating_add(self.lane_full) == self.posts
    }
}
