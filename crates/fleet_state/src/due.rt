//! The arrivals and the farewells that a step brings.

ghost use Rattle.std.specs.Prelude.{◌≡◌, ◌<◌, ◌++◌, List, length, map, slice_get, IfOk, OnOk};
ghost use Rattle.fleet_history.specs.History.{after};
ghost use Rattle.fleet_history.specs.Legal.{due_of, due_at, due, leaving, robot_if};
ghost use Rattle.fleet_state.specs.Landed.{landing};
ghost use Rattle.fleet_state.specs.Robots.{queue_at};
ghost use Rattle.fleet_state.specs.State.{Of, robot_count};
ghost use Rattle.fleet_state.specs.inside.Due.{is_leaver};

use crate::state::FleetState;
use fleet_history::{Arrival, Bye, Entry};
use fleet_queue::Errand;
use std::alloc::{AllocError, Allocator, Global};

/// The arrivals and the farewells that a step brings, each by rising robot and with stamps of 0.
#[derive(Drop)]
pub struct Landings<A: Allocator + Copy = Global> {
    /// Who arrives, and with which errand.
    pub arrived: Vec<Arrival, A>,
    /// Who says farewell.
    pub leaving: Vec<Bye, A>,
}

impl<A: Allocator + Copy> FleetState<A> {
    /// The errand that the robot finishes where a step brings it to the cell.
    pub fn landing(&self, robot: u32, cell: u32) -> Option<Errand>
        requires { robot < robot_count self.now }
        ensures { result ≡ landing cell (queue_at self.now.queues robot).items }
    {
        self.robots.landing(robot as usize, cell)
    }

    /// Adds the arrival of a robot where a step to these cells brings one, and its farewell where that was a shut
    /// robot's last errand.
    fn land(
        &self,
        to: &[u32],
        r: usize,
        arrived: &mut Vec<Arrival, A>,
        leaving: &mut Vec<Bye, A>,
    ) -> Result<(), AllocError>
        requires same { length to.now ≡ robot_count self.now }
        requires known { r < robot_count self.now }
        ensures arrives { OnOk result (map due_of arrived.new.items ≡ map due_of arrived.old.items ++ due_at to.now r (slice_get (queue_at self.now.queues r).items 0)) }
        ensures leaves { OnOk result (map (λ b. b.robot) leaving.new.items ≡ map (λ b. b.robot) leaving.old.items ++ robot_if (is_leaver self.now.counts self.now.queues to.now r) r) }
    {
        let Some(Errand { client, number, .. }) = self.robots.landing(r, to[r]) else {
            return Ok(());
        };
        let robot = r as u32;
        arrived.push(Arrival {
            robot,
            client,
            number,
            stamp: 0,
        })?;
        if self.clients.is_shut(robot) && self.robots.queue(r).len() == 1 {
            leaving.push(Bye { robot, stamp: 0 })?;
        }
        Ok(())
    }

    /// What a step to these cells brings.
    pub fn landings(&self, alloc: A, to: &[u32]) -> Result<Landings<A>, AllocError>
        requires { length to.now ≡ robot_count self.now }
        ensures arrived { IfOk result (λ l. Of self.now (λ h. map due_of l.arrived.items ≡ due h to.now)) }
        ensures leaving { IfOk result (λ l. (arrived : List Arrival) (others : List Bye) → Of self.now (λ h. map due_of arrived ≡ due h to.now →
            map (λ b. b.robot) l.leaving.items ≡ leaving h (after h (Entry.Tick to.now arrived others)))) }
    {
        let mut arrived = Vec::new(alloc);
        let mut leaving = Vec::new(alloc);
        for r in 0..self.robots.len() {
            self.land(to, r, &mut arrived, &mut leaving)?;
        }
        Ok(Landings { arrived, leaving })
    }
}
