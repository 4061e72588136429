//! The notices that the entries of a chapter make for a client.

ghost use Rattle.std.specs.Prelude.{◌≡◌, fold, IfOk, OnOk};
ghost use Rattle.fleet_history.specs.History.{history_of};
ghost use Rattle.fleet_history.specs.Notices.{notices};
ghost use Rattle.live_parts.specs.Recalls.{IsCounted};
ghost use Rattle.live_parts.specs.inside.Making.{added, judged, landed, landed_of, opened};

use fleet_book::{Notice, Verdict};
use fleet_history::{Arrival, Chapter, Entry, Opening};
use std::alloc::{AllocError, Global};
use std::marker::Model;

/// The notices that were made for a client, and the counts by which the next are numbered.
#[derive(Drop)]
struct Making {
    notices: Vec<Notice>,
    taken: u64,
    noticed: u64,
    tick: u64,
}

impl Model for Making {
    ghost use Rattle.live_parts.specs.inside.Making.{Made};

    ghost Value = { Made };

    ghost view = { λ m. record { notices = m.notices.items; taken = m.taken; noticed = m.noticed; tick = m.tick } };
}

impl Making {
    /// At an opening none was made.
    fn new(alloc: Global, opening: &Opening, client: usize) -> Making
        ensures { result ≡ opened opening.now client }
    {
        let (taken, noticed) = match opening.clients.as_slice().get(client) {
            Some(state) => (state.taken, state.noticed),
            None => (0, 0),
        };
        Making {
            notices: Vec::new(alloc),
            taken,
            noticed,
            tick: opening.tick,
        }
    }

    /// Adds the notice of an order that was judged.
    fn judge(&mut self, verdict: Verdict) -> Result<(), AllocError>
        ensures { OnOk result (self.new ≡ judged self.old verdict) }
    {
        self.taken = self.taken.saturating_add(1);
        self.noticed = self.noticed.saturating_add(1);
        let notice = Notice::Verdict {
            seq: self.noticed,
            order_no: self.taken,
            verdict,
        };
        Ok(self.notices.push(notice)?)
    }

    /// Adds the notice of an arrival.
    fn land(&mut self, arrival: Arrival, to: &[u32]) -> Result<(), AllocError>
        ensures { OnOk result (self.new ≡ landed to.now self.old arrival) }
    {
        let cell = match to.get(arrival.robot as usize) {
            Some(cell) => *cell,
            None => 0,
        };
        self.noticed = self.noticed.saturating_add(1);
        let notice = Notice::Arrived {
            seq: self.noticed,
            number: arrival.number,
            robot: arrival.robot,
            cell,
            tick: self.tick,
            stamp: arrival.stamp,
        };
        Ok(self.notices.push(notice)?)
    }

    /// Adds the notices of a client's arrivals.
    fn land_all(&mut self, client: usize, arrived: &[Arrival], to: &[u32]) -> Result<(), AllocError>
        ensures { OnOk result (self.new ≡ fold (landed_of client to.now) self.old arrived.now) }
    {
        for arrival in arrived {
            if arrival.client as usize == client {
                self.land(*arrival, to)?;
            }
        }
        Ok(())
    }

    /// Adds the notices of an entry.
    fn add(&mut self, client: usize, entry: &Entry) -> Result<(), AllocError>
        ensures { OnOk result (self.new ≡ added client self.old entry.now) }
    {
        match entry {
            Entry::Take {
                client: whose,
                verdict,
                ..
            } => {
                if *whose as usize == client {
                    self.judge(*verdict)?;
                }
                Ok(())
            }
            Entry::Tick { to, arrived, .. } => {
                self.tick = self.tick.saturating_add(1);
                self.land_all(client, arrived.as_slice(), to.as_slice())
            }
            Entry::Shut { .. } => Ok(()),
        }
    }

    /// Adds the notices of entries.
    fn add_all(&mut self, client: usize, entries: &[Entry]) -> Result<(), AllocError>
        ensures { OnOk result (self.new ≡ fold (added client) self.old entries.now) }
    {
        for entry in entries {
            self.add(client, entry)?;
        }
        Ok(())
    }
}

/// The notices that a chapter's entries make for a client.
pub(crate) fn notices_of(
    alloc: Global,
    chapter: &Chapter,
    client: usize,
) -> Result<Vec<Notice>, AllocError>
    ensures { IfOk result (λ v. IsCounted (history_of chapter.now) client → v.items ≡ notices (history_of chapter.now) client) }
{
    let mut making = Making::new(alloc, &chapter.opening, client);
    making.add_all(client, &chapter.entries)?;
    Ok(making.notices)
}
