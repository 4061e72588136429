//! The goals that robots got last.

use std::alloc::{AllocError, Allocator};

/// The number of sets of goals, on maps with more cells than a small one.
const SETS: u32 = 512;

/// On a map with at most this many cells there is a place for each cell.
const SMALL_MAP: u32 = 16384;

/// Goals in sets of four, the last one first. A goal's set follows from its number; the goal that was noted longest ago
/// makes way in it. A goal that is still there comes back soon.
#[derive(Drop)]
pub(crate) struct RecentGoals<A: Allocator + Copy> {
    sets: Vec<[u32; 4], A>,
}

/// A number that scatters goals over the sets: those of one row or column do not come together in few sets.
fn scattered(goal: u32) -> usize {
    (goal.wrapping_mul(2654435769) >> 12) as usize
}

impl<A: Allocator + Copy> RecentGoals<A> {
    /// No goals, of a map with this many cells.
    pub(crate) fn new(alloc: A, cells: u32) -> Result<RecentGoals<A>, AllocError> {
        let count = if cells <= SMALL_MAP {
            cells / 4 + 1
        } else {
            SETS
        };
        let mut sets = Vec::new(alloc);
        // No cell has this number.
        sets.resize(count as usize, [u32::MAX; 4])?;
        Ok(RecentGoals { sets })
    }

    /// Whether a goal is there.
    pub(crate) fn has(&self, goal: u32) -> bool {
        let count = self.sets.len();
        if count == 0 {
            return false;
        }
        let [first, second, third, last] = self.sets[scattered(goal) % count];
        goal == first || goal == second || goal == third || goal == last
    }

    /// Notes a goal, and returns whether it was there.
    pub(crate) fn note(&mut self, goal: u32) -> bool {
        let count = self.sets.len();
        if count == 0 {
            return false;
        }
        let at = scattered(goal) % count;
        let [first, second, third, last] = self.sets[at];
        if goal == first {
            return true;
        }
        let is_known = goal == second || goal == third || goal == last;
        let third_now = if goal == second { third } else { second };
        let last_now = if goal == second || goal == third {
            last
        } else {
            third
        };
        self.sets[at] = [goal, first, third_now, last_now];
        is_known
    }
}
