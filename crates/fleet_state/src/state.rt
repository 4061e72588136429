//! The state after a history.

ghost use Rattle.std.specs.Prelude.{◌≡◌, ◌<◌, ◌+◌, List, ℕ, map, length, slice_get};
ghost use Rattle.std.specs.List.{range_with_len};
ghost use Rattle.fleet_history.specs.History.{place, clock, robots, clients, front, unfinished, owed, is_shut, taken_count, accepted_count};
ghost use Rattle.fleet_history.specs.Waits.{wait};
ghost use Rattle.fleet_state.specs.Robots.{queue_at};
ghost use Rattle.fleet_state.specs.State.{Of, robot_count, client_count, by_robot};

use crate::clients::Clients;
use crate::robots::Robots;
use fleet_queue::{Errand, ErrandQueue};
use std::alloc::{Allocator, Global};
use std::marker::Model;

/// The state after a history: cells, queues and waits of the robots, accounts and counts of the clients, the
/// robots that are shut, and the ticks made.
#[derive(Drop)]
pub struct FleetState<A: Allocator + Copy = Global> {
    pub(crate) robots: Robots<A>,
    pub(crate) clients: Clients<A>,
    pub(crate) queue: u32,
    /// By robot: for how many errands its queue has memory.
    pub(crate) rooms: Vec<u32, A>,
    pub(crate) tick: u64,
}

impl<A: Allocator + Copy> Model for FleetState<A> {
    ghost use Rattle.fleet_state.specs.State.{State, IsState, state_with};

    ghost Value = { State A };

    ghost view = { λ s. state_with s.robots s.clients s.queue s.rooms.items s.tick };

    ghost invariant = { λ s. IsState {A = A} (state_with s.robots s.clients s.queue s.rooms.items s.tick) };
}

impl<A: Allocator + Copy> FleetState<A> {
    /// The robots' cells.
    pub fn place(&self) -> &[u32]
        ensures cells { result.now ≡ self.now.cells }
        ensures of { Of self.now (λ h. result.now ≡ place h) }
    {
        self.robots.cells()
    }

    /// The ticks made.
    pub fn clock(&self) -> u64
        ensures tick { result ≡ self.now.tick }
        ensures of { Of self.now (λ h. result ≡ clock h) }
    {
        self.tick
    }

    /// The number of robots.
    pub fn robots(&self) -> usize
        ensures count { result ≡ robot_count self.now }
        ensures of { Of self.now (λ h. result ≡ robots h) }
    {
        self.robots.len()
    }

    /// The number of clients.
    pub fn clients(&self) -> usize
        ensures count { result ≡ client_count self.now }
        ensures of { Of self.now (λ h. result ≡ clients h) }
    {
        self.clients.len()
    }

    /// The waits, by robot.
    pub fn waits(&self) -> &[Option<u64>]
        ensures waits { result.now ≡ self.now.waits }
        ensures of { Of self.now (λ h. result.now ≡ by_robot h (wait h)) }
    {
        self.robots.waits()
    }

    /// The queues of unfinished errands, by robot.
    pub fn queues(&self) -> &[ErrandQueue<A>]
        ensures queues { result.now ≡ self.now.queues }
        ensures of { Of self.now (λ h. map (λ q. q.items) result.now ≡ by_robot h (unfinished h)) }
    {
        self.robots.queues()
    }

    pub fn wait_of(&self, robot: u32) -> Option<u64>
        requires { robot < robot_count self.now }
        ensures { Of self.now (λ h. result ≡ wait h robot) }
    {
        self.robots.wait_of(robot as usize)
    }

    /// Whether the robot refuses further errands.
    pub fn is_shut(&self, robot: u32) -> bool
        requires { robot < robot_count self.now }
        ensures { Of self.now (λ h. result ≡ is_shut h robot) }
    {
        self.clients.is_shut(robot)
    }

    /// The robot's first unfinished errand.
    pub fn front(&self, robot: u32) -> Option<Errand>
        requires { robot < robot_count self.now }
        ensures first { result ≡ slice_get (queue_at self.now.queues robot).items 0 }
        ensures of { Of self.now (λ h. result ≡ front h robot) }
    {
        self.robots.queue(robot as usize).front()
    }

    /// The robot's unfinished errand after the front.
    pub fn next(&self, robot: u32) -> Option<Errand>
        requires { robot < robot_count self.now }
        ensures second { result ≡ slice_get (queue_at self.now.queues robot).items 1 }
        ensures of { Of self.now (λ h. result ≡ slice_get (unfinished h robot) 1) }
    {
        self.robots.queue(robot as usize).get(1)
    }

    /// How many errands of the client are unfinished.
    pub fn owed(&self, client: u32) -> u64
        requires { client < client_count self.now }
        ensures { Of self.now (λ h. result ≡ owed h client) }
    {
        self.clients.owed(client)
    }

    /// How many orders of the client were taken.
    pub fn taken(&self, client: u32) -> u64
        requires { client < client_count self.now }
        ensures { Of self.now (λ h. result ≡ taken_count h client) }
    {
        self.clients.tally(client).taken
    }
}
