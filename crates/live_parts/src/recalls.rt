//! Notices that clients were told, kept to be told again.

ghost use Rattle.std.specs.Prelude.{◌≡◌, ◌<◌, ◌≤◌, ℕ, [], length, slice_index_or, slice_set, OnOk, OnErr, IfOk};
ghost use Rattle.std.specs.List.{list_any, range_with_len};
ghost use Rattle.fleet_history.specs.History.{client_at, clients as client_count, history_of, unknown_client};
ghost use Rattle.fleet_history.specs.Notices.{notices};
ghost use Rattle.live_parts.specs.Recalls.{AreFew, IsCounted, begun, first_of, later_than, noted, recall_at, recall_of, wants_more, with_before, with_notice};

use crate::making::notices_of;
use crate::recall::Recall;
use fleet_book::Notice;
use fleet_history::{Chapter, ClientState};
use std::alloc::{AllocError, Global};
use std::marker::Model;

/// What each client was told: how many notices, and the last of them.
#[derive(Drop)]
pub struct Recalls {
    alloc: Global,
    /// How many notices of a client are kept at most.
    most: usize,
    /// By client.
    clients: Vec<Recall>,
}

impl Model for Recalls {
    ghost use Rattle.live_parts.specs.Recalls.{AreFew, Recalls as Kept};

    ghost Value = { Kept };

    ghost view = { λ s. record { most = s.most; clients = s.clients.items } };

    ghost invariant = { λ s. AreFew s.most s.clients.items };
}

/// Makes room for a number of clients.
fn widen(alloc: Global, clients: &mut Vec<Recall>, count: usize) -> Result<(), AllocError>
    ensures wide { OnOk result (count ≤ length clients.new.items) }
    ensures few { (most : ℕ) → AreFew most clients.old.items → AreFew most clients.new.items }
    ensures same { (c : ℕ) → recall_at clients.new.items c ≡ recall_at clients.old.items c }
{
    while clients.len() < count {
        clients.push(Recall::new(alloc))?;
    }
    Ok(())
}

/// Notes that a client was told a notice.
fn note_in(
    clients: &mut Vec<Recall>,
    most: usize,
    client: usize,
    notice: Notice,
) -> Result<(), AllocError>
    requires few { AreFew most clients.old.items }
    ensures few { AreFew most clients.new.items }
    ensures ok { OnOk result (clients.new.items ≡ slice_set clients.old.items client (with_notice most notice (recall_at clients.old.items client))) }
    ensures err { OnErr result (clients.new.items ≡ clients.old.items) }
{
    if client < clients.len() {
        clients[client].push(most, notice)
    } else {
        Ok(())
    }
}

/// Adds the notices of a chapter before those that are kept.
fn add_in(
    alloc: Global,
    clients: &mut Vec<Recall>,
    most: usize,
    chapter: &Chapter,
) -> Result<(), AllocError>
    requires few { AreFew most clients.old.items }
    requires wide { client_count (history_of chapter.now) ≤ length clients.old.items }
    ensures few { AreFew most clients.new.items }
    ensures len { length clients.new.items ≡ length clients.old.items }
    ensures kept { OnOk result ((c : ℕ) → c < client_count (history_of chapter.now) → IsCounted (history_of chapter.now) c → recall_at clients.new.items c ≡ with_before most (notices (history_of chapter.now) c) (recall_at clients.old.items c)) }
    ensures others { (c : ℕ) → client_count (history_of chapter.now) ≤ c → recall_at clients.new.items c ≡ recall_at clients.old.items c }
{
    for client in 0..chapter.opening.clients.len() {
        let notices = notices_of(alloc, chapter, client)?;
        clients[client].add_before(most, &notices)?;
    }
    Ok(())
}

/// Whether notices from before this opening are wanted for a client.
fn any_wants(clients: &[Recall], most: usize, opened: &[ClientState]) -> bool
    requires wide { length opened.now ≤ length clients.now }
    ensures { result ≡ list_any (λ c. wants_more most (slice_index_or opened.now c unknown_client) (recall_at clients.now c)) (range_with_len 0 (length opened.now)) }
{
    for at in 0..opened.len() {
        if clients[at].wants(most, &opened[at]) {
            return true;
        }
    }
    false
}

/// Begins with a fleet whose clients are these.
fn begin_in(clients: &mut Vec<Recall>, states: &[ClientState])
    requires wide { length states.now ≤ length clients.old.items }
    ensures few { (most : ℕ) → AreFew most clients.old.items → AreFew most clients.new.items }
    ensures len { length clients.new.items ≡ length clients.old.items }
    ensures begun { (c : ℕ) → c < length states.now → recall_at clients.new.items c ≡ begun (slice_index_or states.now c unknown_client) (recall_at clients.old.items c) }
    ensures others { (c : ℕ) → length states.now ≤ c → recall_at clients.new.items c ≡ recall_at clients.old.items c }
{
    for at in 0..states.len() {
        clients[at].begin(&states[at]);
    }
}

impl Recalls {
    /// Nothing was told. Of each client at most `most` notices are kept.
    pub fn new(alloc: Global, most: usize) -> Recalls
        ensures { result ≡ record { most = most; clients = [] } }
    {
        Recalls {
            alloc,
            most,
            clients: Vec::new(alloc),
        }
    }

    /// Notes that a client was told a notice. Of a client that is not known nothing is kept.
    pub fn note(&mut self, client: u32, notice: Notice) -> Result<(), AllocError>
        ensures ok { OnOk result (self.new ≡ noted client notice self.old) }
        ensures err { OnErr result (self.new ≡ self.old) }
    {
        note_in(&mut self.clients, self.most, client as usize, notice)
    }

    /// Adds the notices of a chapter before those that are kept, as many as there is room for. Returns whether there is
    /// room for those of a chapter before it.
    pub fn add_chapter(&mut self, chapter: &Chapter) -> Result<bool, AllocError>
        ensures most { self.new.most ≡ self.old.most }
        ensures kept { IfOk result (λ _. (c : ℕ) → c < client_count (history_of chapter.now) → IsCounted (history_of chapter.now) c → recall_of self.new c ≡ with_before self.old.most (notices (history_of chapter.now) c) (recall_of self.old c)) }
        ensures others { IfOk result (λ _. (c : ℕ) → client_count (history_of chapter.now) ≤ c → recall_of self.new c ≡ recall_of self.old c) }
        ensures wants { IfOk result (λ wants. wants ≡ list_any (λ c. wants_more self.old.most (client_at (history_of chapter.now) c) (recall_of self.new c)) (range_with_len 0 (client_count (history_of chapter.now)))) }
    {
        let opened = chapter.opening.clients.as_slice();
        widen(self.alloc, &mut self.clients, opened.len())?;
        add_in(self.alloc, &mut self.clients, self.most, chapter)?;
        Ok(any_wants(&self.clients, self.most, opened))
    }

    /// Begins with a fleet whose clients are these: what was noticed was told.
    pub fn begin(&mut self, clients: &[ClientState]) -> Result<(), AllocError>
        ensures most { self.new.most ≡ self.old.most }
        ensures begun { OnOk result ((c : ℕ) → c < length clients.now → recall_of self.new c ≡ begun (slice_index_or clients.now c unknown_client) (recall_of self.old c)) }
        ensures others { OnOk result ((c : ℕ) → length clients.now ≤ c → recall_of self.new c ≡ recall_of self.old c) }
        ensures wide { OnOk result (length clients.now ≤ length self.new.clients) }
        ensures few { AreFew self.new.most self.new.clients }
    {
        widen(self.alloc, &mut self.clients, clients.len())?;
        begin_in(&mut self.clients, clients);
        Ok(())
    }

    /// How many notices a client was told.
    pub fn told(&self, client: u32) -> u64
        ensures { result ≡ (recall_of self.now client).told }
    {
        match self.clients.get(client as usize) {
            Some(recall) => recall.told(),
            None => 0,
        }
    }

    /// The number of the first notice that can be told a client again; that of the next one if none can.
    pub fn first(&self, client: u32) -> u64
        ensures { result ≡ first_of (recall_of self.now client) }
    {
        match self.clients.get(client as usize) {
            Some(recall) => recall.first(),
            None => 1,
        }
    }

    /// Whether a client was closed when the fleet began or went on.
    pub fn was_closed(&self, client: u32) -> bool
        ensures { result ≡ (recall_of self.now client).closed }
    {
        match self.clients.get(client as usize) {
            Some(recall) => recall.was_closed(),
            None => false,
        }
    }

    /// The notices after this one that can be told a client again, in order.
    pub fn after(&self, client: u32, seq: u64) -> Result<Vec<Notice>, AllocError>
        ensures ok { IfOk result (λ v. v.items ≡ later_than seq (recall_of self.now client).notices) }
        ensures few { IfOk result (λ v. length v.items ≤ self.now.most) }
    {
        match self.clients.get(client as usize) {
            Some(recall) => recall.after(self.alloc, seq),
            None => Ok(Vec::new(self.alloc)),
        }
    }
}
