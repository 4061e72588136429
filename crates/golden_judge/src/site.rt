//! A map by its letters alone.

use fleet_map::MapText;
use std::alloc::{AllocError, Global};

/// A map's letters, and for each cell the lowest cell that can be reached from it.
#[derive(Drop)]
pub struct Site {
    width: u32,
    letters: Vec<u8>,
    least: Vec<u32>,
}

impl Site {
    /// The site of a map.
    pub fn new(alloc: Global, map: &MapText) -> Result<Site, AllocError> {
        let mut least = Vec::new(alloc);
        let mut cell = 0u32;
        for _letter in &map.cells {
            least.push(cell)?;
            cell = cell.saturating_add(1);
        }
        let mut site = Site {
            width: map.width,
            letters: Vec::from_slice(alloc, &map.cells)?,
            least,
        };
        for _round in 0..map.cells.len() {
            site.join();
        }
        Ok(site)
    }

    /// Each floor cell and its neighbours to the east and to the south get the lower of their two labels.
    fn join(&mut self) {
        let mut cell = 0u32;
        for _letter in 0..self.letters.len() {
            self.join_pair(cell, cell.saturating_add(1));
            self.join_pair(cell, cell.saturating_add(self.width));
            cell = cell.saturating_add(1);
        }
    }

    fn join_pair(&mut self, a: u32, b: u32) {
        if !self.is_floor(a) || !self.is_floor(b) || !self.is_beside(a, b) {
            return;
        }
        let least = self.least_of(a).min(self.least_of(b));
        for cell in [a, b] {
            if let Some(place) = self.least.get_mut(cell as usize) {
                *place = least;
            }
        }
    }

    fn least_of(&self, cell: u32) -> u32 {
        self.least.get(cell as usize).copied().unwrap_or(cell)
    }

    pub(crate) fn is_cell(&self, cell: u32) -> bool {
        (cell as usize) < self.letters.len()
    }

    pub(crate) fn is_floor(&self, cell: u32) -> bool {
        matches!(self.letters.get(cell as usize), Some(b'.' | b'G' | b'S'))
    }

    /// Whether two cells share a side.
    pub(crate) fn is_beside(&self, a: u32, b: u32) -> bool {
        let (low, high, width) = (a.min(b), a.max(b), self.width.max(1));
        let gap = high - low;
        gap == width || (gap == 1 && low / width == high / width)
    }

    /// Whether a walk joins two floor cells.
    pub(crate) fn is_joined(&self, a: u32, b: u32) -> bool {
        self.is_floor(a) && self.is_floor(b) && self.least_of(a) == self.least_of(b)
    }
}
