//! The clients' mailboxes. Each has the notices that were not given yet, in a ring of fixed size.

ghost use Rattle.std.specs.Prelude.{◌≡◌, ◌+◌, ◌<◌, ◌≤◌, ◌^◌, ◌==◌, [], ◌∷◌, ◌++◌, ℕ, All, count_by, length, drop, map, max, replicate, slice_get, slice_index, IfOk, OnOk, OnErr};
ghost use Rattle.fleet_grid.specs.Floor.{Floor};
ghost use Rattle.fleet_history.specs.History.{History};
ghost use Rattle.fleet_state.specs.State.{IsStateOf, Of, by_client, client_count};
ghost use Rattle.fleet_core.specs.Resuming.{empty_box};
ghost use Rattle.fleet_core.specs.inside.Mailboxes.{box_at, with_notice, with_box, AreDelivered};

use circular_buffer::HeapCircularBuffer;
use fleet_book::{Notice, Verdict};
use fleet_history::{Arrival, ClientState};
use fleet_state::FleetState;
use std::alloc::{AllocError, Allocator};
use std::marker::Model;

/// The pending notices of one client. Only `new` allocates.
#[derive(Drop)]
pub(crate) struct Mailbox<A: Allocator + Copy> {
    notices: HeapCircularBuffer<Notice, A>,
}

impl<A: Allocator + Copy> Model for Mailbox<A> {
    ghost use Rattle.std.specs.Prelude.{length, ◌≤◌};
    ghost use Rattle.fleet_core.specs.Pending.{Pending};

    ghost Value = { Pending };

    ghost view = { λ b. record { notices = b.notices.items; limit = b.notices.capacity } };

    ghost invariant = { λ b. length b.notices.items ≤ b.notices.capacity };
}

impl<A: Allocator + Copy> Mailbox<A> {
    /// An empty mailbox with room for this many notices.
    pub(crate) fn new(alloc: A, limit: u64) -> Result<Self, AllocError>
        ensures { IfOk result (λ b. b ≡ record { notices = []; limit = limit }) }
    {
        let notices = HeapCircularBuffer::with_capacity(alloc, limit as usize)?;
        Ok(Mailbox { notices })
    }

    /// The number of notices.
    pub(crate) fn len(&self) -> usize
        ensures value { result ≡ length self.now.notices }
        ensures small { result < 2 ^ 63 }
    {
        self.notices.len()
    }

    /// How many notices it may hold.
    pub(crate) fn limit(&self) -> u64
        ensures { result ≡ self.now.limit }
    {
        self.notices.capacity() as u64
    }

    /// The first notice.
    pub(crate) fn first(&self) -> Option<Notice>
        ensures { result ≡ slice_get self.now.notices 0 }
    {
        self.notices.front().copied()
    }

    /// Puts a notice after the others, where there is room.
    pub(crate) fn push(&mut self, notice: Notice)
        requires { length self.old.notices < self.old.limit }
        ensures { self.new ≡ record self.old { notices = self.old.notices ++ notice ∷ [] } }
    {
        let _ = self.notices.try_push_back(notice);
    }

    /// Makes room for this many more notices.
    pub(crate) fn widen(&mut self, extra: u64) -> Result<(), AllocError>
        requires { self.old.limit + extra ≤ 2 ^ 60 }
        ensures ok { OnOk result (self.new ≡ record self.old { limit = self.old.limit + extra }) }
        ensures err { OnErr result (self.new ≡ self.old) }
        ensures notices { self.new.notices ≡ self.old.notices }
        ensures limit { self.old.limit ≤ self.new.limit }
    {
        let limit = self.notices.capacity() + extra as usize;
        self.notices.resize(limit)
    }

    /// Takes the first notice out.
    pub(crate) fn pop(&mut self) -> Option<Notice>
        ensures first { result ≡ slice_get self.old.notices 0 }
        ensures rest { self.new ≡ record self.old { notices = drop 1 self.old.notices } }
    {
        self.notices.pop_front()
    }
}

/// This many mailboxes without notices, each with its room.
fn empty_boxes<A: Allocator + Copy>(
    alloc: A,
    count: usize,
    limit: u32,
) -> Result<Vec<Mailbox<A>, A>, AllocError>
    ensures { IfOk result (λ boxes. boxes.items ≡ replicate count (record { notices = []; limit = limit })) }
{
    let mut boxes = Vec::with_capacity(alloc, count)?;
    for _i in 0..count {
        boxes.push_reserved(Mailbox::new(alloc, u64::from(limit))?);
    }
    Ok(boxes)
}

fn greater(a: u64, b: u64) -> u64
    ensures { result ≡ max a b }
{
    if a < b { b } else { a }
}

/// Mailboxes without notices of the clients of a state, each with room for this many and for what its client is owed.
fn owed_boxes<A: Allocator + Copy>(
    alloc: A,
    state: &FleetState<A>,
    room: u32,
) -> Result<Vec<Mailbox<A>, A>, AllocError>
    requires { client_count state.now ≤ 64 }
    ensures { IfOk result (λ boxes. Of state.now (λ h. boxes.items ≡ by_client h (empty_box h room))) }
{
    let mut boxes = Vec::with_capacity(alloc, state.clients())?;
    for c in 0..state.clients() {
        let limit = greater(u64::from(room), state.owed(c as u32));
        boxes.push_reserved(Mailbox::new(alloc, limit)?);
    }
    Ok(boxes)
}

/// How many notices were made for each of these clients.
fn noticed_of<A: Allocator + Copy>(
    alloc: A,
    clients: &[ClientState],
) -> Result<Vec<u64, A>, AllocError>
    ensures { IfOk result (λ noticed. noticed.items ≡ map (λ c. c.noticed) clients.now) }
{
    clients.iter().map(|client| client.noticed).collect(alloc)
}

/// The clients' mailboxes, by number, and how many notices were made for each client. Only `open`, `resume` and `widen`
/// allocate.
#[derive(Drop)]
pub(crate) struct Mailboxes<A: Allocator + Copy> {
    boxes: Vec<Mailbox<A>, A>,
    noticed: Vec<u64, A>,
}

impl<A: Allocator + Copy> Model for Mailboxes<A> {
    ghost use Rattle.std.specs.Prelude.{◌≡◌, length};
    ghost use Rattle.fleet_core.specs.inside.Mailboxes.{Mailboxes};

    ghost Value = { Mailboxes };

    ghost view = { λ x. record { boxes = x.boxes.items; noticed = x.noticed.items } };

    ghost invariant = { λ x. length x.noticed.items ≡ length x.boxes.items };
}

impl<A: Allocator + Copy> Mailboxes<A> {
    /// This many mailboxes without notices, each with its room.
    pub(crate) fn open(alloc: A, count: usize, limit: u32) -> Result<Self, AllocError>
        ensures { IfOk result (λ x. x
            ≡ record { boxes = replicate count record { notices = []; limit = limit }; noticed = replicate count 0 }) }
    {
        let noticed = vec![in alloc; 0u64; count]?;
        let boxes = empty_boxes(alloc, count, limit)?;
        Ok(Mailboxes { boxes, noticed })
    }

    /// Mailboxes without notices of these clients, of whom this is the state: each has room for this many notices and
    /// for what its client is owed, and goes on with its client's numbers.
    pub(crate) fn resume(
        alloc: A,
        clients: &[ClientState],
        state: &FleetState<A>,
        room: u32,
    ) -> Result<Self, AllocError>
        requires few { client_count state.now ≤ 64 }
        requires is { (m : Floor) × (h : History A) × IsStateOf m h state.now }
        requires same { length clients.now ≡ client_count state.now }
        ensures boxes { IfOk result (λ x. Of state.now (λ h. x.boxes ≡ by_client h (empty_box h room))) }
        ensures noticed { IfOk result (λ x. x.noticed ≡ map (λ c. c.noticed) clients.now) }
    {
        let noticed = noticed_of(alloc, clients)?;
        let boxes = owed_boxes(alloc, state, room)?;
        Ok(Mailboxes { boxes, noticed })
    }

    /// The number of notices in the client's mailbox.
    pub(crate) fn len_of(&self, client: u32) -> usize
        requires { client < length self.now.boxes }
        ensures value { result ≡ length (box_at self.now.boxes client).notices }
        ensures small { result < 2 ^ 63 }
    {
        self.boxes[client as usize].len()
    }

    /// How many notices and unfinished errands the client may have.
    pub(crate) fn limit_of(&self, client: u32) -> u64
        requires { client < length self.now.boxes }
        ensures { result ≡ (box_at self.now.boxes client).limit }
    {
        self.boxes[client as usize].limit()
    }

    /// The first notice in the client's mailbox.
    pub(crate) fn first(&self, client: u32) -> Option<Notice>
        requires { client < length self.now.boxes }
        ensures { result ≡ slice_get (box_at self.now.boxes client).notices 0 }
    {
        self.boxes[client as usize].first()
    }

    /// The number of the client's next notice, from 1.
    pub(crate) fn next_number(&self, client: u32) -> u64
        requires known { client < length self.now.boxes }
        requires small { slice_index self.now.noticed client + 1 < 2 ^ 64 }
        ensures next { result ≡ slice_index self.now.noticed client + 1 }
        ensures one_each { length self.now.noticed ≡ length self.now.boxes }
    {
        self.noticed[client as usize] + 1
    }

    /// Puts the client's next notice after the others.
    pub(crate) fn push(&mut self, client: u32, notice: Notice)
        requires known { client < length self.old.boxes }
        requires small { slice_index self.old.noticed client + 1 < 2 ^ 64 }
        requires room { length (box_at self.old.boxes client).notices < (box_at self.old.boxes client).limit }
        ensures { self.new ≡ with_notice self.old client notice }
    {
        let mailbox = &mut self.boxes[client as usize];
        mailbox.push(notice);
        self.noticed[client as usize] += 1;
    }

    /// Puts the verdict on the client's order of this number after its other notices.
    pub(crate) fn push_verdict(&mut self, client: u32, order_no: u64, verdict: Verdict)
        requires known { client < length self.old.boxes }
        requires small { slice_index self.old.noticed client + 1 < 2 ^ 64 }
        requires room { length (box_at self.old.boxes client).notices < (box_at self.old.boxes client).limit }
        ensures { self.new ≡ with_notice self.old client (Notice.Verdict (slice_index self.old.noticed client + 1) order_no verdict) }
    {
        let seq = self.next_number(client);
        let notice = Notice::Verdict {
            seq,
            order_no,
            verdict,
        };
        self.push(client, notice);
    }

    /// Adds the notices of these arrivals, in a tick that brought the robots to these cells, to the clients' mailboxes.
    pub(crate) fn deliver(&mut self, arrived: &[Arrival], to: &[u32], tick: u64)
        requires known { All (λ a. a.client < length self.old.boxes) arrived.now }
        requires on_map { All (λ a. a.robot < length to.now) arrived.now }
        requires small { (c : ℕ) → c < length self.old.boxes → slice_index self.old.noticed c + length arrived.now < 2 ^ 60 }
        requires room { (c : ℕ) → c < length self.old.boxes →
            length (box_at self.old.boxes c).notices + count_by (λ a. a.client == c) arrived.now ≤ (box_at self.old.boxes c).limit }
        ensures { AreDelivered arrived.now to.now tick self.old self.new }
    {
        for a in arrived {
            let notice = Notice::Arrived {
                seq: self.next_number(a.client),
                number: a.number,
                robot: a.robot,
                cell: to[a.robot as usize],
                tick,
                stamp: a.stamp,
            };
            self.push(a.client, notice);
        }
    }

    /// Takes the client's first notice out.
    pub(crate) fn pop(&mut self, client: u32) -> Option<Notice>
        requires { client < length self.old.boxes }
        ensures first { result ≡ slice_get (box_at self.old.boxes client).notices 0 }
        ensures rest { self.new ≡ with_box self.old client (record (box_at self.old.boxes client) { notices = drop 1 (box_at self.old.boxes client).notices }) }
    {
        let mailbox = &mut self.boxes[client as usize];
        mailbox.pop()
    }

    /// Makes room for this many more notices of the client.
    pub(crate) fn widen(&mut self, client: u32, extra: u64) -> Result<(), AllocError>
        requires known { client < length self.old.boxes }
        requires small { (box_at self.old.boxes client).limit + extra ≤ 2 ^ 60 }
        ensures ok { OnOk result (self.new
            ≡ with_box self.old client (record (box_at self.old.boxes client) { limit = (box_at self.old.boxes client).limit + extra })) }
        ensures err { OnErr result (self.new ≡ self.old) }
    {
        let mailbox = &mut self.boxes[client as usize];
        mailbox.widen(extra)
    }
}
