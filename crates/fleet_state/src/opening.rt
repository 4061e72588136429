//! The state at an opening, and the opening of the chapter that follows.

ghost use Rattle.std.specs.Prelude.{◌≡◌, ◌≤◌, All, IfOk, length, map, replicate};
ghost use Rattle.std.specs.List.{range_with_len};
ghost use Rattle.fleet_grid.specs.Floor.{Floor};
ghost use Rattle.fleet_history.specs.History.{History, start};
ghost use Rattle.fleet_history.specs.Legal.{IsInOrder, IsLegal};
ghost use Rattle.fleet_history.specs.Next.{next_opening, HasRoomForCounts};
ghost use Rattle.fleet_state.specs.State.{IsStateOf, Of, HasFullRooms, state_after, robot_count, clients_of};
ghost use Rattle.fleet_state.specs.Opened.{HaveRooms};
ghost use Rattle.fleet_state.specs.Clients.{client_known};
ghost use Rattle.fleet_state.specs.inside.Next.{robot_known};

use crate::clients::Clients;
use crate::robots::Robots;
use crate::state::FleetState;
use fleet_history::{ClientState, Opening, RobotState, Row};
use fleet_queue::{Errand, ErrandQueue};
use std::alloc::{AllocError, Allocator};

impl<A: Allocator + Copy> FleetState<A> {
    /// The state at an opening that is in order, with memory for this many errands a queue.
    pub fn open(alloc: A, opening: &Opening<A>, room: u32) -> Result<Self, AllocError>
        requires order { (m : Floor) × IsInOrder m opening.now }
        requires room { All (λ x. length x.errands ≤ room) opening.now.robots }
        ensures of { IfOk result (λ s. (m : Floor) → IsInOrder m opening.now → IsStateOf m (start opening.now) s) }
        ensures full { IfOk result (λ s. s.queue ≤ room → HasFullRooms s) }
    {
        let rooms = same_rooms(alloc, opening.robots.len(), room)?;
        FleetState::open_within(alloc, opening, rooms)
    }

    /// The state at an opening that is in order, where each robot's queue has memory for this many errands.
    pub fn open_within(
        alloc: A,
        opening: &Opening<A>,
        rooms: Vec<u32, A>,
    ) -> Result<Self, AllocError>
        requires order { (m : Floor) × IsInOrder m opening.now }
        requires rooms { HaveRooms rooms.items opening.now.robots }
        ensures of { IfOk result (λ s. (m : Floor) → IsInOrder m opening.now → IsStateOf m (start opening.now) s) }
        ensures goes_on { IfOk result (λ s. (m : Floor) (h : History A) → IsLegal m h → opening.now ≡ next_opening h → s ≡ state_after rooms.items h) }
        ensures rooms { IfOk result (λ s. s.rooms ≡ rooms.items) }
    {
        Ok(FleetState {
            robots: Robots::open(alloc, opening.robots.as_slice(), &rooms)?,
            clients: Clients::open(alloc, opening)?,
            queue: opening.queue,
            rooms,
            tick: opening.tick,
        })
    }

    /// The opening of the next chapter, made from the opening of the current one. The state stays the same, and is that
    /// of the history that goes on.
    pub fn next_opening(&self, alloc: A, opening: &Opening<A>) -> Result<Opening<A>, AllocError>
        requires { length opening.now.robots ≡ robot_count self.now }
        ensures next { IfOk result (λ next. Of self.now (λ h. h.opening ≡ opening.now → next ≡ next_opening h)) }
        ensures goes_on { IfOk result (λ next. (m : Floor) (h : History A) → IsStateOf m h self.now → h.opening ≡ opening.now →
            HasRoomForCounts h → IsStateOf m (start next) self.now) }
    {
        Ok(Opening {
            tick: self.tick,
            queue: opening.queue,
            life: opening.life,
            clients: Row::from_vec(self.client_states(alloc)?),
            robots: Row::from_vec(self.robot_states(alloc, opening)?),
        })
    }

    /// What is known of the clients.
    fn client_states(&self, alloc: A) -> Result<Vec<ClientState, A>, AllocError>
        ensures { IfOk result (λ states. states.items ≡
            map (client_known (clients_of self.now)) (range_with_len 0 (length self.now.tallies))) }
    {
        let mut states = Vec::new(alloc);
        for c in 0..self.clients.len() {
            states.push(self.clients.state(c as u32))?;
        }
        Ok(states)
    }

    /// What is known of the robots, whose laws are those of the opening.
    fn robot_states(
        &self,
        alloc: A,
        opening: &Opening<A>,
    ) -> Result<Vec<RobotState<A>, A>, AllocError>
        requires { length opening.now.robots ≡ robot_count self.now }
        ensures { IfOk result (λ states. states.items ≡ map (robot_known self.now opening.now) (range_with_len 0 (length self.now.queues))) }
    {
        let opened = opening.robots.as_slice();
        let mut states = Vec::new(alloc);
        for r in 0..opened.len() {
            states.push(RobotState {
                cell: self.robots.cell_of(r),
                shut: self.clients.is_shut(r as u32),
                wait: self.robots.wait_of(r),
                errands: Row::from_vec(errands_of(alloc, self.robots.queue(r))?),
                arrival_law: opened[r].arrival_law,
                farewell_law: opened[r].farewell_law,
            })?;
        }
        Ok(states)
    }
}

/// The errands of a queue, from the front on.
fn errands_of<A: Allocator + Copy>(
    alloc: A,
    queue: &ErrandQueue<A>,
) -> Result<Vec<Errand, A>, AllocError>
    ensures { IfOk result (λ errands. errands.items ≡ queue.now.items) }
{
    let mut errands = Vec::new(alloc);
    for place in 0..queue.len() {
        if let Some(errand) = queue.get(place) {
            errands.push(errand)?;
        }
    }
    Ok(errands)
}

/// The same room for this many robots.
fn same_rooms<A: Allocator + Copy>(
    alloc: A,
    robots: usize,
    room: u32,
) -> Result<Vec<u32, A>, AllocError>
    ensures { IfOk result (λ rooms. rooms.items ≡ replicate robots room) }
{
    vec![in alloc; room; robots]
}
