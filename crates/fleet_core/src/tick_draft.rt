//! The step of a tick: the part that allocates, before the state is changed.

ghost use Rattle.std.specs.Prelude.{◌≡◌, ◌+◌, ◌<◌, ◌^◌, true, false, length, map, vec_len, IfOk, OnOk, OnErr};
ghost use Rattle.fleet_planner.specs.Courses.{goals_of};
ghost use Rattle.fleet_state.specs.State.{robot_count};
ghost use Rattle.fleet_planner.specs.Aimed.{MayPlan};
ghost use Rattle.mover.specs.Moving.{HasTurns};
ghost use Rattle.fleet_core.specs.Hooks.{spare_laws, without_all};
ghost use Rattle.fleet_core.specs.inside.Ready.{IsStep, IsReady, IsOnSame};
ghost use Rattle.fleet_core.specs.inside.Stamped.{MayStamp, AreStamped, AreLeast, HaveStamps, own_laws, laws_as, spare_as};

use crate::faults::TickReport;
use crate::least_stamps;
use crate::stamps::{arrive, take_leave};
use fleet_grid::Grid;
use fleet_history::{Arrival, Bye, Entry, RobotState};
use fleet_hooks::{ArrivalHook, Farewell, TieHook};
use fleet_state::{FleetState, Landings};
use mover::Mover;
use std::alloc::{AllocError, Allocator};

/// Where the robots go, which arrive there and which say farewell. The stamps are written later, when nothing can fail
/// any more.
#[derive(Drop)]
pub(crate) struct TickDraft<A: Allocator + Copy> {
    pub(crate) to: Vec<u32, A>,
    pub(crate) arrived: Vec<Arrival, A>,
    pub(crate) leaving: Vec<Bye, A>,
}

impl<A: Allocator + Copy> TickDraft<A> {
    /// Writes stamps: with `least` the least that the robots' laws allow, else what the closures return (`stamp`).
    pub(crate) fn stamp_as(
        &mut self,
        robots: &[RobotState<A>],
        arrivals: &[ArrivalHook],
        farewells: &mut Vec<Option<Farewell>, A>,
        least: bool,
        tick: u64,
    ) -> TickReport
        requires may { MayStamp (length (laws_as least robots.now (map (λ h. h.law) arrivals.now))) (length (spare_as least robots.now (spare_laws farewells.old.items))) (spare_as least robots.now (spare_laws farewells.old.items)) self.old.to.items self.old.arrived.items self.old.leaving.items }
        requires orderly { HaveStamps robots.now }
        ensures to { self.new.to.items ≡ self.old.to.items }
        ensures stamped { AreStamped (laws_as least robots.now (map (λ h. h.law) arrivals.now)) (spare_as least robots.now (spare_laws farewells.old.items)) self.old.arrived.items self.new.arrived.items self.old.leaving.items self.new.leaving.items }
        ensures spent { least ≡ false → spare_laws farewells.new.items ≡ without_all (map (λ b. b.robot) self.old.leaving.items) (spare_laws farewells.old.items) }
        ensures lowest { least ≡ true → AreLeast robots.now self.new.arrived.items self.new.leaving.items }
        ensures report { result ≡ record { tick = tick; arrived = length self.new.arrived.items; farewells = length self.new.leaving.items } }
    {
        if least {
            self.stamp_least(robots, tick)
        } else {
            self.stamp(arrivals, farewells, tick)
        }
    }

    /// Calls the robots' closures in this tick, at the arrivals and where robots say farewell, and writes their stamps.
    /// The farewells that are called are spent.
    fn stamp(
        &mut self,
        arrivals: &[ArrivalHook],
        farewells: &mut Vec<Option<Farewell>, A>,
        tick: u64,
    ) -> TickReport
        requires { MayStamp (length arrivals.now) (vec_len farewells.old) (spare_laws farewells.old.items) self.old.to.items self.old.arrived.items self.old.leaving.items }
        ensures to { self.new.to.items ≡ self.old.to.items }
        ensures stamped { AreStamped (map (λ h. h.law) arrivals.now) (spare_laws farewells.old.items) self.old.arrived.items self.new.arrived.items self.old.leaving.items self.new.leaving.items }
        ensures spent { spare_laws farewells.new.items ≡ without_all (map (λ b. b.robot) self.old.leaving.items) (spare_laws farewells.old.items) }
        ensures report { result ≡ record { tick = tick; arrived = length self.new.arrived.items; farewells = length self.new.leaving.items } }
    {
        arrive(&mut self.arrived, arrivals, &self.to, tick);
        take_leave(&mut self.leaving, farewells, &self.to, tick);
        TickReport::of(tick, self.arrived.len(), self.leaving.len())
    }

    /// Writes the least stamps that the robots' laws allow.
    fn stamp_least(&mut self, robots: &[RobotState<A>], tick: u64) -> TickReport
        requires may { MayStamp (length robots.now) (length robots.now) (own_laws robots.now) self.old.to.items self.old.arrived.items self.old.leaving.items }
        requires orderly { HaveStamps robots.now }
        ensures to { self.new.to.items ≡ self.old.to.items }
        ensures stamped { AreStamped (map (λ x. x.arrival_law) robots.now) (own_laws robots.now) self.old.arrived.items self.new.arrived.items self.old.leaving.items self.new.leaving.items }
        ensures lowest { AreLeast robots.now self.new.arrived.items self.new.leaving.items }
        ensures report { result ≡ record { tick = tick; arrived = length self.new.arrived.items; farewells = length self.new.leaving.items } }
    {
        least_stamps::arrive(&mut self.arrived, robots);
        least_stamps::take_leave(&mut self.leaving, robots);
        TickReport::of(tick, self.arrived.len(), self.leaving.len())
    }
}

/// The planned step of the next tick, with stamps of 0.
fn step_of<A: Allocator + Copy>(
    alloc: A,
    grid: &Grid<A>,
    state: &FleetState<A>,
    planner: &mut Mover<A>,
    ties: &[TieHook],
) -> Result<TickDraft<A>, AllocError>
    requires may { MayPlan grid.now state.now planner.old.planner }
    requires turns { HasTurns grid.now (robot_count state.now) planner.old.turns }
    requires tied { length ties.now ≡ robot_count state.now }
    requires early { state.now.tick + 1 < 2 ^ 63 }
    ensures goals { goals_of planner.new.planner.aims ≡ goals_of planner.old.planner.aims }
    ensures same { IsOnSame grid.now planner.old planner.new }
    ensures step { IfOk result (λ step. IsStep grid.now planner.old.turns (map (λ h. h.law) ties.now) state.now (goals_of planner.old.planner.aims) step.to.items step.arrived.items step.leaving.items) }
{
    let to = planner.plan(alloc, grid, state, ties)?;
    let Landings { arrived, leaving } = state.landings(alloc, to.as_slice())?;
    Ok(TickDraft {
        to,
        arrived,
        leaving,
    })
}

/// Makes room for one entry more, and aims the robots at the goals that they have after a tick to these cells.
fn make_ready<A: Allocator + Copy>(
    entries: &mut Vec<Entry<A>, A>,
    planner: &mut Mover<A>,
    grid: &Grid<A>,
    state: &FleetState<A>,
    to: &[u32],
) -> Result<(), AllocError>
    requires may { MayPlan grid.now state.now planner.old.planner }
    requires turns { HasTurns grid.now (robot_count state.now) planner.old.turns }
    requires same { length to.now ≡ robot_count state.now }
    ensures items { entries.new.items ≡ entries.old.items }
    ensures ready { OnOk result (IsReady state.now to.now planner.new entries.new) }
    ensures same { IsOnSame grid.now planner.old planner.new }
    ensures refused { OnErr result (goals_of planner.new.planner.aims ≡ goals_of planner.old.planner.aims) }
{
    entries.reserve(1)?;
    planner.turn(grid, state, to)
}

/// Plans the next tick, and does all of it that allocates: on return its entry has room in the list, and the robots aim
/// at the goals that they have after it.
pub(crate) fn ready<A: Allocator + Copy>(
    alloc: A,
    grid: &Grid<A>,
    state: &FleetState<A>,
    planner: &mut Mover<A>,
    ties: &[TieHook],
    entries: &mut Vec<Entry<A>, A>,
) -> Result<TickDraft<A>, AllocError>
    requires may { MayPlan grid.now state.now planner.old.planner }
    requires turns { HasTurns grid.now (robot_count state.now) planner.old.turns }
    requires tied { length ties.now ≡ robot_count state.now }
    requires early { state.now.tick + 1 < 2 ^ 63 }
    ensures items { entries.new.items ≡ entries.old.items }
    ensures step { IfOk result (λ step. IsStep grid.now planner.old.turns (map (λ h. h.law) ties.now) state.now (goals_of planner.old.planner.aims) step.to.items step.arrived.items step.leaving.items) }
    ensures ready { IfOk result (λ step. IsReady state.now step.to.items planner.new entries.new) }
    ensures same { IsOnSame grid.now planner.old planner.new }
    ensures refused { OnErr result (goals_of planner.new.planner.aims ≡ goals_of planner.old.planner.aims) }
{
    let step = step_of(alloc, grid, state, planner, ties)?;
    make_ready(entries, planner, grid, state, &step.to)?;
    Ok(step)
}
