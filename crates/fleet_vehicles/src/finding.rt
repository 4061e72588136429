//! Turns that were made before the vehicles are asked where they stand, and their answers.

use live_vehicles::{Arrived, Before, Known};
use std::alloc::{AllocError, Global};

/// What is known before vehicles go on.
#[derive(Drop)]
pub(crate) struct Found {
    /// The tick of the first placement that is known.
    pub(crate) first: u64,
    pub(crate) before: Before,
    /// By robot: the cell on which it stands, as it said.
    pub(crate) at: Vec<Option<u32>>,
}

impl Found {
    pub(crate) fn new(alloc: Global) -> Found {
        Found {
            first: 0,
            before: Before {
                placement: Vec::new(alloc),
                known: Vec::new(alloc),
            },
            at: Vec::new(alloc),
        }
    }

    /// Notes a turn. No more of them are kept than may be made ahead.
    pub(crate) fn note(
        &mut self,
        tick: u64,
        cells: Vec<u32>,
        arrived: Vec<Arrived>,
        ahead: u32,
    ) -> Result<(), AllocError> {
        let is_next = self
            .first
            .saturating_add(self.before.known.len() as u64)
            .saturating_add(1)
            == tick;
        if self.before.placement.is_empty() || !is_next {
            self.first = tick;
            self.before.placement = cells;
            self.before.known.clear();
            return Ok(());
        }
        if self.before.known.len() >= ahead as usize && !self.before.known.is_empty() {
            let gone = self.before.known.remove(0);
            self.before.placement = gone.to;
            self.first = self.first.saturating_add(1);
        }
        let Ok(()) = self.before.known.push(Known { to: cells, arrived }) else {
            return Err(AllocError);
        };
        Ok(())
    }

    /// Forgets all turns but the placement after the last one.
    pub(crate) fn settle(&mut self) {
        self.first = self.first.saturating_add(self.before.known.len() as u64);
        if let Some(last) = self.before.known.pop() {
            self.before.placement = last.to;
        }
        self.before.known.clear();
    }

    /// Forgets where vehicles stand.
    pub(crate) fn ask(&mut self) -> Result<(), AllocError> {
        self.at.clear();
        self.at.resize(self.before.placement.len(), None)
    }

    /// The cells on which all robots stand, once each has said its own.
    pub(crate) fn cells(&self, alloc: Global) -> Result<Option<Vec<u32>>, AllocError> {
        let mut cells = Vec::with_capacity(alloc, self.at.len())?;
        for at in &self.at {
            match at {
                Some(cell) => cells.push(*cell)?,
                None => return Ok(None),
            }
        }
        Ok(Some(cells))
    }
}
