//! The verdict rule on the history.

ghost use Rattle.std.specs.Prelude.{◌≡◌, ◌<◌, ℕ, true, false};
ghost use Rattle.fleet_grid.specs.Step.{IsPlacement};
ghost use Rattle.fleet_history.specs.History.{History};
ghost use Rattle.fleet_history.specs.Verdicts.{AreFacts, IsVerdict};
ghost use Rattle.fleet_state.specs.State.{IsStateOf, HasFullRooms, client_count};
ghost use Rattle.fleet_state.specs.Robots.{HasPlace};

use crate::state::FleetState;
use fleet_book::{Facts, Order, Place, Verdict};
use fleet_grid::Grid;
use std::alloc::Allocator;

impl<A: Allocator + Copy> FleetState<A> {
    /// The facts about an order of the client.
    pub fn facts(&self, grid: &Grid<A>, client: u32, order: Order) -> Facts
        requires { IsPlacement grid.now self.now.cells }
        ensures { (h : History A) → IsStateOf grid.now h self.now → AreFacts grid.now h client order result }
    {
        let mut facts = Facts {
            robot_known: false,
            in_range: false,
            floor: false,
            same_part: false,
            queue_full: false,
            place: Place::Absent,
        };
        match order {
            Order::Go { robot, cell } => {
                facts.in_range = cell < grid.cell_count();
                facts.floor = grid.is_floor(cell);
                let r = robot as usize;
                if r < self.robots.len() {
                    facts.robot_known = true;
                    facts.queue_full = self.robots.queue(r).len() == self.queue as usize;
                    facts.same_part = facts.floor && grid.same_part(self.robots.cell_of(r), cell);
                }
            }
            Order::Close => {}
            Order::Withdraw { number } => facts.place = self.robots.place_of(client, number),
        }
        facts
    }

    /// The verdict on an order of the client. If it accepts an errand, the robot's queue has room for it, unless the
    /// queue has memory for fewer errands than the limit allows.
    pub fn judge(&self, grid: &Grid<A>, client: u32, order: Order) -> Verdict
        requires client { client < client_count self.now }
        requires placed { IsPlacement grid.now self.now.cells }
        ensures verdict { (h : History A) → IsStateOf grid.now h self.now → IsVerdict grid.now h client order result }
        ensures place { (h : History A) → IsStateOf grid.now h self.now → HasFullRooms self.now → HasPlace self.now.queues order result }
    {
        let facts = self.facts(grid, client, order);
        self.clients.judge(client, order, facts)
    }

    /// Whether the robot of an order has memory for one more errand.
    pub fn has_room(&self, order: Order) -> bool
        ensures room { result ≡ true → (verdict : Verdict) → HasPlace self.now.queues order verdict }
        ensures full { result ≡ false → (number : ℕ) → HasPlace self.now.queues order (Verdict.Accepted number) → ⊥ }
    {
        let Order::Go { robot, cell: _ } = order else {
            return true;
        };
        let r = robot as usize;
        r < self.robots.len() && !self.robots.queue(r).is_full()
    }
}
