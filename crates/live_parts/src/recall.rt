//! What one client was told, kept to be told again.

ghost use Rattle.std.specs.Prelude.{◌≡◌, ◌+◌, ◌-◌, ◌≤◌, ◌++◌, drop, length, OnOk, OnErr, IfOk};
ghost use Rattle.fleet_history.specs.Notices.{seq_of};
ghost use Rattle.live_parts.specs.Recalls.{begun, first_of, later_than, leads_to, nothing_told, wants_more, with_before, with_notice};

use fleet_book::Notice;
use fleet_history::ClientState;
use std::alloc::{AllocError, Global};
use std::collections::VecDeque;
use std::marker::Model;

/// What a client was told.
#[derive(Drop)]
pub(crate) struct Recall {
    /// The last notices, in order.
    notices: VecDeque<Notice>,
    /// How many it was told.
    told: u64,
    /// Whether it was closed when the fleet began or went on.
    closed: bool,
}

impl Model for Recall {
    ghost use Rattle.live_parts.specs.Recalls.{Recall as Kept};

    ghost Value = { Kept };

    ghost view = { λ r. record { notices = r.notices.items; told = r.told; closed = r.closed } };
}

/// The number of a notice.
fn seq_of(notice: Notice) -> u64
    ensures { result ≡ seq_of notice }
{
    match notice {
        Notice::Verdict { seq, .. } | Notice::Arrived { seq, .. } => seq,
    }
}

/// Adds the last `count` of these notices before the others.
fn add_last(
    notices: &mut VecDeque<Notice>,
    before: &[Notice],
    count: usize,
) -> Result<(), AllocError>
    requires there { count ≤ length before.now }
    ensures ok { OnOk result (notices.new.items ≡ drop (length before.now - count) before.now ++ notices.old.items) }
    ensures few { length notices.new.items ≤ length notices.old.items + count }
{
    for at in 0..count {
        notices.push_front(before[before.len() - 1 - at])?;
    }
    Ok(())
}

impl Recall {
    /// Nothing was told.
    pub(crate) fn new(alloc: Global) -> Recall
        ensures { result ≡ nothing_told }
    {
        Recall {
            notices: VecDeque::new(alloc),
            told: 0,
            closed: false,
        }
    }

    /// How many notices it was told.
    pub(crate) fn told(&self) -> u64
        ensures { result ≡ self.now.told }
    {
        self.told
    }

    /// Whether it was closed when the fleet began or went on.
    pub(crate) fn was_closed(&self) -> bool
        ensures { result ≡ self.now.closed }
    {
        self.closed
    }

    /// The number of the first notice that can be told again; that of the next one if none can.
    pub(crate) fn first(&self) -> u64
        ensures { result ≡ first_of self.now }
    {
        match self.notices.front() {
            Some(notice) => seq_of(*notice),
            None => self.told.saturating_add(1),
        }
    }

    /// The notices after this one that can be told again, in order.
    pub(crate) fn after(&self, alloc: Global, seq: u64) -> Result<Vec<Notice>, AllocError>
        ensures { IfOk result (λ v. v.items ≡ later_than seq self.now.notices) }
    {
        self.notices
            .iter()
            .copied()
            .filter(|notice| seq_of(*notice) > seq)
            .collect(alloc)
    }

    /// Adds a notice after the others; of more than are kept the first goes.
    pub(crate) fn push(&mut self, most: usize, notice: Notice) -> Result<(), AllocError>
        requires few { length self.old.notices ≤ most }
        ensures ok { OnOk result (self.new ≡ with_notice most notice self.old) }
        ensures err { OnErr result (self.new ≡ self.old) }
    {
        if most > 0 {
            if self.notices.len() == most {
                let _first = self.notices.pop_front();
            }
            self.notices.push_back(notice)?;
        }
        self.told = seq_of(notice);
        Ok(())
    }

    /// Whether these notices end where the others begin.
    fn follows(&self, before: &[Notice]) -> bool
        ensures { result ≡ leads_to before.now self.now.notices }
    {
        let (Some(last), Some(first)) = (before.last(), self.notices.front()) else {
            return true;
        };
        seq_of(*last).checked_add(1) == Some(seq_of(*first))
    }

    /// Adds notices before the others, the last of them, as many as there is room for; none if they do not end where
    /// the others begin.
    pub(crate) fn add_before(&mut self, most: usize, before: &[Notice]) -> Result<(), AllocError>
        requires few { length self.old.notices ≤ most }
        ensures ok { OnOk result (self.new ≡ with_before most before.now self.old) }
        ensures few { length self.new.notices ≤ most }
    {
        if !self.follows(before) {
            return Ok(());
        }
        let count = before.len().min(most - self.notices.len());
        add_last(&mut self.notices, before, count)
    }

    /// Whether notices from before this opening are wanted.
    pub(crate) fn wants(&self, most: usize, opening: &ClientState) -> bool
        ensures { result ≡ wants_more most opening.now self.now }
    {
        opening.noticed > 0 && self.notices.len() < most
    }

    /// Begins with a fleet that made these notices.
    pub(crate) fn begin(&mut self, client: &ClientState)
        ensures { self.new ≡ begun client.now self.old }
    {
        self.told = client.noticed;
        self.closed = client.closed;
        let is_whole = match self.notices.back() {
            Some(last) => seq_of(*last) == client.noticed,
            None => true,
        };
        if !is_whole {
            self.notices.clear();
        }
    }
}
