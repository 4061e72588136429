//! What each kind of event does to a session.

ghost use Rattle.std.specs.Prelude.{◌≡◌, ◌≤◌, IfOk, OnErr, length};
ghost use Rattle.fleet_history.specs.Notices.{seq_of as seq_of_notice};
ghost use Rattle.fleet_world.specs.Talk.{TalkStep};
ghost use Rattle.fleet_world.specs.Keeps.{talk};

use crate::reply::Reply;
use crate::session::Session;
use fleet_book::{Event, Notice, Order};
use fleet_core::{ShutFault, TakeFault, TickFault};
use std::alloc::{Alloc, AllocError, Allocator};

impl<A: Allocator + Copy> Session<A> {
    /// A post: the order joins the lane, unless that is full.
    fn post(&mut self, client: u32, order: Order) -> Result<Reply, AllocError>
        ensures step { IfOk result (λ reply. TalkStep (talk self.old) (Event.Post client order) reply (talk self.new)) }
        ensures err { OnErr result (talk self.new ≡ talk self.old) }
    {
        if client as usize >= self.waiting.len() {
            return Ok(Reply::NoClient);
        }
        let lane = self.world.core.limits().lane;
        let taken = self.world.core.taken(client);
        let waiting = &mut self.waiting[client as usize];
        let before = waiting.lane_len();
        if before >= lane as usize {
            return Ok(Reply::LaneFull);
        }
        waiting.send(order)?;
        Ok(Reply::Posted(taken + before as u64 + 1))
    }

    /// A take: the lane's first order goes into the world.
    #[tactic(auto, using(fleet_core::proofs::Fronts::nil_from_none))]
    fn take(&mut self, client: u32) -> Result<Reply, AllocError>
        ensures step { IfOk result (λ reply. TalkStep (talk self.old) (Event.Take client) reply (talk self.new)) }
        ensures err { OnErr result (talk self.new ≡ talk self.old) }
    {
        if client as usize >= self.waiting.len() {
            return Ok(Reply::NoClient);
        }
        let Some(order) = self.waiting[client as usize].next_order() else {
            return Ok(Reply::LaneEmpty);
        };
        let taken = self.world.core.taken(client);
        match self.world.take(client, order) {
            Ok(verdict) => {
                self.waiting[client as usize].take();
                Ok(Reply::Took {
                    order_no: taken + 1,
                    verdict,
                })
            }
            Err(TakeFault::NoMemory) => Err(AllocError),
            Err(fault) => Ok(Reply::TakeRefused(fault)),
        }
    }

    /// A give: the mailbox's first notice goes to the outlet, unless that is full.
    #[tactic(auto, using(fleet_core::proofs::Fronts::nil_from_none))]
    fn give(&mut self, client: u32) -> Result<Reply, AllocError>
        ensures step { IfOk result (λ reply. TalkStep (talk self.old) (Event.Give client) reply (talk self.new)) }
        ensures err { OnErr result (talk self.new ≡ talk self.old) }
    {
        if client as usize >= self.waiting.len() {
            return Ok(Reply::NoClient);
        }
        let Some(notice) = self.world.next_notice(client) else {
            return Ok(Reply::NothingPending);
        };
        let waiting = &mut self.waiting[client as usize];
        if waiting.outlet_len() >= self.world.core.limits().outlet as usize {
            return Ok(Reply::OutletFull);
        }
        waiting.give(notice)?;
        let _given = self.world.give(client);
        Ok(Reply::Gave(seq_of(notice)))
    }

    /// A collect: the outlet's first notice goes to the client.
    fn collect(&mut self, client: u32) -> Reply
        ensures { TalkStep (talk self.old) (Event.Collect client) result (talk self.new) }
    {
        if client as usize >= self.waiting.len() {
            return Reply::NoClient;
        }
        match self.waiting[client as usize].collect() {
            Some(notice) => Reply::Collected(notice),
            None => Reply::NothingThere,
        }
    }

    /// A shut: the robot refuses further errands.
    fn shut(&mut self, robot: u32) -> Result<Reply, AllocError>
        ensures step { IfOk result (λ reply. TalkStep (talk self.old) (Event.Shut robot) reply (talk self.new)) }
        ensures err { OnErr result (talk self.new ≡ talk self.old) }
    {
        match self.world.shut(robot) {
            Ok(farewell) => Ok(Reply::ShutDone(farewell)),
            Err(ShutFault::NoMemory) => Err(AllocError),
            Err(fault) => Ok(Reply::ShutRefused(fault)),
        }
    }

    /// A tick: all robots make one step.
    fn tick<R: Alloc<A = A>>(&mut self, rt: &R) -> Result<Reply, AllocError>
        ensures step { IfOk result (λ reply. TalkStep (talk self.old) Event.Tick reply (talk self.new)) }
        ensures err { OnErr result (talk self.new ≡ talk self.old) }
    {
        match self.world.tick(rt) {
            Ok(report) => Ok(Reply::Ticked(report)),
            Err(TickFault::NoMemory) => Err(AllocError),
            Err(fault) => Ok(Reply::TickRefused(fault)),
        }
    }

    /// Does one event, and returns what is replied. A refused event changes nothing, nor does one for which memory ran
    /// out.
    pub fn step<R: Alloc<A = A>>(&mut self, rt: &R, event: Event) -> Result<Reply, AllocError>
        // Of each call: the checker lets closures go to another crate only in a call with a `requires`.
        requires { 0 ≤ self.old.world.core.number }
        ensures step { IfOk result (λ reply. TalkStep (talk self.old) event reply (talk self.new)) }
        ensures err { OnErr result (talk self.new ≡ talk self.old) }
    {
        match event {
            Event::Post(client, order) => self.post(client, order),
            Event::Take(client) => self.take(client),
            Event::Tick => self.tick(rt),
            Event::Give(client) => self.give(client),
            Event::Collect(client) => Ok(self.collect(client)),
            Event::Shut(robot) => self.shut(robot),
        }
    }
}

/// The number of a notice among its client's.
fn seq_of(notice: Notice) -> u64
    ensures { result ≡ seq_of_notice notice }
{
    match notice {
        Notice::Verdict { seq, .. } => seq,
        Notice::Arrived { seq, .. } => seq,
    }
}
