//! What became of all orders.

use crate::tally::Tally;
use fleet_book::Verdict;
use fleet_history::{Arrival, Chapter, Entry};
use std::alloc::{AllocError, Global};

/// What the clients sent and collected, and what the history says about it.
#[derive(Clone, Copy)]
pub(crate) struct Account {
    pub(crate) told: Tally,
    /// Orders that the history takes, errands that it accepts, and arrivals that it shows.
    pub(crate) taken: u64,
    pub(crate) accepted: u64,
    pub(crate) arrived: u64,
}

impl Account {
    /// Before the first client.
    pub(crate) const NONE: Account = Account {
        told: Tally::NONE,
        taken: 0,
        accepted: 0,
        arrived: 0,
    };

    /// Adds what a client sent and collected.
    pub(crate) fn add(&mut self, tally: &Tally) {
        let told = &mut self.told;
        told.orders = told.orders.saturating_add(tally.orders);
        told.verdicts = told.verdicts.saturating_add(tally.verdicts);
        told.accepted = told.accepted.saturating_add(tally.accepted);
        told.arrived = told.arrived.saturating_add(tally.arrived);
        told.in_order &= tally.in_order;
    }

    /// Adds what the history says.
    pub(crate) fn read(&mut self, chapter: &Chapter) {
        for entry in &chapter.entries {
            match entry {
                Entry::Take { verdict, .. } => {
                    self.taken = self.taken.saturating_add(1);
                    if let Verdict::Accepted(_) = verdict {
                        self.accepted = self.accepted.saturating_add(1);
                    }
                }
                Entry::Tick { arrived, .. } => {
                    self.arrived = self.arrived.saturating_add(arrived.len() as u64);
                }
                Entry::Shut { .. } => {}
            }
        }
    }

    /// Errands that are still in a queue.
    pub(crate) fn queued(&self) -> u64 {
        self.accepted.saturating_sub(self.arrived)
    }

    /// Whether each order has its verdict, each accepted errand has arrived or is in a queue, and the clients got a
    /// notice for everything in the history, in order.
    pub(crate) fn is_right(&self) -> bool {
        self.told.in_order
            && self.told.orders == self.told.verdicts
            && self.told.verdicts == self.taken
            && self.told.accepted == self.accepted
            && self.told.arrived == self.arrived
            && self.arrived <= self.accepted
    }
}

/// When each errand was accepted, by client and number, and when each robot last arrived.
#[derive(Drop)]
struct Times {
    accepted: Vec<Vec<u64>>,
    arrived: Vec<u64>,
}

impl Times {
    /// Before the first entry.
    fn new(alloc: Global, clients: u32, robots: u32) -> Result<Times, AllocError> {
        let arrived = vec![in alloc; 0u64; robots as usize]?;
        let accepted = (0..clients).map(|_client| Vec::new(alloc)).collect(alloc)?;
        Ok(Times { accepted, arrived })
    }

    /// Notes that an errand of the client was accepted after this many ticks.
    fn accept(&mut self, client: u32, tick: u64) -> Result<(), AllocError> {
        match self.accepted.get_mut(client as usize) {
            Some(errands) => Ok(errands.push(tick)?),
            None => Ok(()),
        }
    }

    /// Notes the arrivals of a tick, with the number of ticks before it. Returns the longest wait of the robots that
    /// arrived.
    fn arrive(&mut self, arrived: &[Arrival], tick: u64) -> u64 {
        let mut greatest = 0;
        for arrival in arrived {
            greatest = self.wait_before(arrival, tick).max(greatest);
            if let Some(at) = self.arrived.get_mut(arrival.robot as usize) {
                *at = tick.saturating_add(1);
            }
        }
        greatest
    }

    /// How long a robot that arrives in that tick had waited.
    fn wait_before(&self, arrival: &Arrival, tick: u64) -> u64 {
        let mut since = 0;
        if let Some(errands) = self.accepted.get(arrival.client as usize) {
            if let Some(at) = errands.get(arrival.number.saturating_sub(1) as usize) {
                since = *at;
            }
        }
        if let Some(at) = self.arrived.get(arrival.robot as usize) {
            since = since.max(*at);
        }
        tick.saturating_sub(since)
    }

    /// Notes what the chapter shows. Returns the longest wait for an arrival, in ticks.
    fn read(&mut self, chapter: &Chapter) -> Result<u64, AllocError> {
        let (mut tick, mut greatest) = (0u64, 0u64);
        for entry in &chapter.entries {
            match entry {
                Entry::Take {
                    client,
                    verdict: Verdict::Accepted(_),
                    ..
                } => self.accept(*client, tick)?,
                Entry::Tick { arrived, .. } => {
                    greatest = self.arrive(arrived.as_slice(), tick).max(greatest);
                    tick = tick.saturating_add(1);
                }
                _ => {}
            }
        }
        Ok(greatest)
    }
}

/// The longest wait, in ticks, for an arrival that the chapter shows.
pub(crate) fn greatest_wait(
    alloc: Global,
    chapter: &Chapter,
    clients: u32,
    robots: u32,
) -> Result<u64, AllocError> {
    let mut times = Times::new(alloc, clients, robots)?;
    times.read(chapter)
}
