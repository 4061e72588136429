//! What stands between a world and its clients.

use fleet_world::{Notice, Order};
use std::alloc::{AllocError, Global};

/// Orders that were posted and not taken, and notices that were given and not collected, each after its client.
#[derive(Drop)]
pub(crate) struct Clients {
    posted: Vec<(u32, Order)>,
    given: Vec<(u32, Notice)>,
}

impl Clients {
    /// Clients that did nothing yet.
    pub(crate) fn new(alloc: Global) -> Clients {
        Clients {
            posted: Vec::new(alloc),
            given: Vec::new(alloc),
        }
    }

    pub(crate) fn post(&mut self, client: u32, order: Order) -> Result<(), AllocError> {
        self.posted.push((client, order))?;
        Ok(())
    }

    /// The client's first order that was not taken.
    pub(crate) fn next_order(&self, client: u32) -> Option<Order> {
        for (poster, order) in self.posted.iter() {
            if *poster == client {
                return Some(*order);
            }
        }
        None
    }

    /// Takes that order out.
    pub(crate) fn take(&mut self, client: u32) {
        let first = self.posted.iter().position(|posted| posted.0 == client);
        if let Some(at) = first
            && at < self.posted.len()
        {
            self.posted.remove(at);
        }
    }

    /// How many notices the client was given and did not collect.
    pub(crate) fn outlet_len(&self, client: u32) -> usize {
        self.given.iter().filter(|given| given.0 == client).count()
    }

    pub(crate) fn give(&mut self, client: u32, notice: Notice) -> Result<(), AllocError> {
        self.given.push((client, notice))?;
        Ok(())
    }

    /// Takes out the client's first notice that it did not collect.
    pub(crate) fn collect(&mut self, client: u32) -> Option<Notice> {
        let at = self.given.iter().position(|given| given.0 == client)?;
        if at >= self.given.len() {
            return None;
        }
        Some(self.given.remove(at).1)
    }
}
