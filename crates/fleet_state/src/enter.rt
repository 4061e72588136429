//! The state after one more entry.

ghost use Rattle.std.specs.Prelude.{◌≡◌};
ghost use Rattle.fleet_state.specs.Robots.{HasPlace};
ghost use Rattle.fleet_state.specs.Follows.{Follows, MayFollow, FollowsTick, MayTick, FollowsShut, MayShut, IsPlaced};

use crate::state::FleetState;
use fleet_book::{Order, Verdict};
use fleet_history::Entry;
use std::alloc::Allocator;

impl<A: Allocator + Copy> FleetState<A> {
    /// Enters an entry of a history.
    pub fn enter(&mut self, entry: &Entry<A>)
        requires may { MayFollow self.old entry.now }
        requires place { IsPlaced self.old.queues entry.now }
        ensures follows { Follows self.old entry.now self.new }
        ensures rooms { self.new.rooms ≡ self.old.rooms }
    {
        match entry {
            Entry::Take {
                client,
                order,
                verdict,
            } => self.enter_take(*client, *order, *verdict),
            Entry::Tick {
                to,
                arrived: _,
                farewells: _,
            } => self.enter_tick(to.as_slice()),
            Entry::Shut { robot, farewell: _ } => self.enter_shut(*robot),
        }
    }

    /// Enters that an order of the client was taken, with this verdict.
    pub fn enter_take(&mut self, client: u32, order: Order, verdict: Verdict)
        requires may { MayFollow self.old (Entry.Take client order verdict) }
        requires place { HasPlace self.old.queues order verdict }
        ensures follows { Follows self.old (Entry.Take client order verdict) self.new }
        ensures rooms { self.new.rooms ≡ self.old.rooms }
    {
        self.robots.take(client, order, verdict);
        self.clients.take(client, verdict);
    }

    /// Enters that the robot was shut.
    pub fn enter_shut(&mut self, robot: u32)
        requires { MayShut self.old robot }
        ensures follows { FollowsShut self.old robot self.new }
        ensures rooms { self.new.rooms ≡ self.old.rooms }
    {
        self.clients.shut_robot(robot);
    }

    /// Enters a tick that brought the robots to these cells.
    pub fn enter_tick(&mut self, to: &[u32])
        requires { MayTick self.old to.now }
        ensures follows { FollowsTick self.old to.now self.new }
        ensures rooms { self.new.rooms ≡ self.old.rooms }
    {
        for r in 0..to.len() {
            if let Some(errand) = self.robots.step(r, to[r]) {
                self.clients.arrive(errand.client);
            }
        }
        self.tick += 1;
    }
}
