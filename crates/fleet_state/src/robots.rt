//! The robots of a state: their cells, errands and waits.

ghost use Rattle.std.specs.Prelude.{◌≡◌, ◌≢◌, ◌+◌, ◌<◌, ◌^◌, ◌&&◌, ℕ, None, Some, IfOk, true, false, length, map, slice_index, slice_index_or};
ghost use Rattle.std.specs.List.{list_any};
ghost use Rattle.fleet_queue.specs.Queue.{is_of};
ghost use Rattle.fleet_history.specs.Verdicts.{place_in};
ghost use Rattle.fleet_state.specs.Landed.{landing, is_last};
ghost use Rattle.fleet_state.specs.Opened.{HaveRooms, robots_in};
ghost use Rattle.fleet_state.specs.Robots.{queue_at, stepped, joined, without_errand, HasPlace, AreTaken, IsPlaceAmong};

use crate::landing::{front_cell, landing, one_more, take_landed, wait_after};
use crate::queues::{fronts_of, queues_of};
use fleet_book::{Order, Place, Verdict};
use fleet_history::RobotState;
use fleet_queue::{Errand, ErrandQueue};
use std::alloc::{AllocError, Allocator, Global};
use std::marker::Model;

/// The robots, by number. Only `open` allocates.
#[derive(Drop)]
pub(crate) struct Robots<A: Allocator + Copy = Global> {
    cells: Vec<u32, A>,
    queues: Vec<ErrandQueue<A>, A>,
    /// By robot: the cell of its first errand; any cell if it has none. Each queue has memory of its own. With this
    /// flat list a tick need not look at the queues of robots that cannot arrive.
    fronts: Vec<u32, A>,
    waits: Vec<Option<u64>, A>,
}

impl<A: Allocator + Copy> Model for Robots<A> {
    ghost use Rattle.std.specs.Prelude.{◌≡◌, length};
    ghost use Rattle.fleet_state.specs.Robots.{Robots};
    ghost use Rattle.fleet_state.specs.inside.Fronts.{AreFronts};

    ghost Value = { Robots };

    ghost view = { λ x. record { cells = x.cells.items; queues = x.queues.items; waits = x.waits.items } };

    ghost invariant = { λ x. (length x.cells.items ≡ length x.queues.items) × (length x.waits.items ≡ length x.queues.items) × AreFronts x.queues.items x.fronts.items };
}

/// Where robots stand.
fn cells_of<A: Allocator + Copy>(
    alloc: A,
    states: &[RobotState<A>],
) -> Result<Vec<u32, A>, AllocError>
    ensures { IfOk result (λ cells. cells.items ≡ map (λ x. x.cell) states.now) }
{
    states.iter().map(|robot| robot.cell).collect(alloc)
}

/// How long robots have waited.
fn waits_of<A: Allocator + Copy>(
    alloc: A,
    states: &[RobotState<A>],
) -> Result<Vec<Option<u64>, A>, AllocError>
    ensures { IfOk result (λ waits. waits.items ≡ map (λ x. x.wait) states.now) }
{
    states.iter().map(|robot| robot.wait).collect(alloc)
}

impl<A: Allocator + Copy> Robots<A> {
    /// The robots of an opening, where each one's queue has memory for this many errands.
    pub(crate) fn open(
        alloc: A,
        states: &[RobotState<A>],
        rooms: &[u32],
    ) -> Result<Self, AllocError>
        requires { HaveRooms rooms.now states.now }
        ensures { IfOk result (λ x. x ≡ robots_in rooms.now states.now) }
    {
        let cells = cells_of(alloc, states)?;
        let waits = waits_of(alloc, states)?;
        let queues = queues_of(alloc, states, rooms)?;
        let fronts = fronts_of(alloc, queues.as_slice())?;
        Ok(Robots {
            cells,
            queues,
            fronts,
            waits,
        })
    }

    /// The number of robots.
    pub(crate) fn len(&self) -> usize
        ensures { result ≡ length self.now.queues }
    {
        self.queues.len()
    }

    /// The robots' cells.
    pub(crate) fn cells(&self) -> &[u32]
        ensures { result.now ≡ self.now.cells }
    {
        self.cells.as_slice()
    }

    /// The robots' waits.
    pub(crate) fn waits(&self) -> &[Option<u64>]
        ensures { result.now ≡ self.now.waits }
    {
        self.waits.as_slice()
    }

    /// The robots' queues of unfinished errands.
    pub(crate) fn queues(&self) -> &[ErrandQueue<A>]
        ensures { result.now ≡ self.now.queues }
    {
        self.queues.as_slice()
    }

    /// The robot's queue of unfinished errands.
    pub(crate) fn queue(&self, robot: usize) -> &ErrandQueue<A>
        requires { robot < length self.now.queues }
        ensures { result.now ≡ queue_at self.now.queues robot }
    {
        &self.queues[robot]
    }

    /// Where the robot stands.
    pub(crate) fn cell_of(&self, robot: usize) -> u32
        requires { robot < length self.now.queues }
        ensures { result ≡ slice_index self.now.cells robot }
    {
        self.cells[robot]
    }

    /// How long the robot has waited.
    pub(crate) fn wait_of(&self, robot: usize) -> Option<u64>
        requires { robot < length self.now.queues }
        ensures { result ≡ slice_index_or self.now.waits robot None }
    {
        self.waits[robot]
    }

    /// Where the client's errand with this number stands.
    pub(crate) fn place_of(&self, client: u32, number: u64) -> Place
        ensures { IsPlaceAmong self.now.queues client number result }
    {
        for r in 0..self.queues.len() {
            let queue = &self.queues[r];
            if queue.holds(client, number) {
                return place_held(queue, client, number);
            }
        }
        Place::Absent
    }

    /// Whether the robot may arrive on the cell. If not, its queue need not be looked at.
    fn may_land(&self, robot: usize, cell: u32) -> bool
        requires { robot < length self.now.queues }
        ensures { result ≡ false → landing cell (queue_at self.now.queues robot).items ≡ None }
    {
        self.fronts[robot] == cell
    }

    /// The errand that the robot finishes where a step brings it to the cell.
    pub(crate) fn landing(&self, robot: usize, cell: u32) -> Option<Errand>
        requires { robot < length self.now.queues }
        ensures { result ≡ landing cell (queue_at self.now.queues robot).items }
    {
        if self.may_land(robot, cell) {
            landing(&self.queues[robot], cell)
        } else {
            None
        }
    }

    /// Lets the robot step to the cell: counts its wait on, and takes the errand that it lands on out of its queue.
    pub(crate) fn step(&mut self, robot: usize, cell: u32) -> Option<Errand>
        requires known { robot < length self.old.queues }
        requires small { (w : ℕ) → slice_index_or self.old.waits robot None ≡ Some w → w + 1 < 2 ^ 64 }
        ensures landing { result ≡ landing cell (queue_at self.old.queues robot).items }
        ensures stepped { self.new ≡ stepped self.old robot cell }
    {
        if self.may_land(robot, cell) {
            return self.step_on_front(robot, cell);
        }
        self.cells[robot] = cell;
        self.waits[robot] = one_more(self.waits[robot]);
        None
    }

    /// The same, by a look at the robot's queue.
    fn step_on_front(&mut self, robot: usize, cell: u32) -> Option<Errand>
        requires known { robot < length self.old.queues }
        requires small { (w : ℕ) → slice_index_or self.old.waits robot None ≡ Some w → w + 1 < 2 ^ 64 }
        ensures landing { result ≡ landing cell (queue_at self.old.queues robot).items }
        ensures stepped { self.new ≡ stepped self.old robot cell }
    {
        self.cells[robot] = cell;
        let errands = &mut self.queues[robot];
        let landed = take_landed(errands, cell);
        self.waits[robot] = wait_after(landed, errands, self.waits[robot]);
        self.fronts[robot] = front_cell(errands);
        landed
    }

    /// Adds an accepted errand to its robot's queue, where it may be the first and begin to wait; or removes a
    /// withdrawn one. Other verdicts change nothing.
    pub(crate) fn take(&mut self, client: u32, order: Order, verdict: Verdict)
        requires { HasPlace self.old.queues order verdict }
        ensures { AreTaken client order verdict self.old self.new }
    {
        match verdict {
            Verdict::Accepted(number) => {
                if let Order::Go { robot, cell } = order {
                    self.join(
                        robot as usize,
                        Errand {
                            client,
                            number,
                            cell,
                        },
                    );
                }
            }
            Verdict::Withdrawn => {
                if let Order::Withdraw { number } = order {
                    self.withdraw(client, number);
                }
            }
            _ => {}
        }
    }

    /// Puts the errand after the robot's others. Where there are none, the robot begins to wait.
    fn join(&mut self, robot: usize, errand: Errand)
        requires { length (queue_at self.old.queues robot).items < (queue_at self.old.queues robot).capacity }
        ensures { self.new ≡ joined self.old robot errand }
    {
        let queue = &mut self.queues[robot];
        let _ = queue.try_push(errand);
        self.fronts[robot] = front_cell(queue);
        self.waits[robot] = Some(self.waits[robot].unwrap_or(0));
    }

    /// Takes the client's errand with this number out, wherever it stands after a front.
    fn withdraw(&mut self, client: u32, number: u64)
        ensures cells { self.new.cells ≡ self.old.cells }
        ensures count { length self.new.queues ≡ length self.old.queues }
        ensures queues { (r : ℕ) → r < length self.old.queues →
            queue_at self.new.queues r ≡ without_errand client number (queue_at self.old.queues r) }
        ensures waits { self.new.waits ≡ self.old.waits }
    {
        for r in 0..self.queues.len() {
            let queue = &mut self.queues[r];
            let _ = queue.withdraw(client, number);
        }
    }
}

/// Where in the queue the errand stands that it holds.
fn place_held<A: Allocator + Copy>(queue: &ErrandQueue<A>, client: u32, number: u64) -> Place
    requires { list_any (is_of client number) queue.now.items ≡ true }
    ensures at { result ≡ place_in (is_of client number) queue.now.items }
    ensures some { result ≢ Place.Absent }
{
    if let Some(front) = queue.front() {
        if front.client == client && front.number == number {
            return Place::Front;
        }
    }
    Place::Behind
}
