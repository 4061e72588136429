//! The closures of a world's robots, apart from its core.

ghost use Rattle.std.specs.Prelude.{Some, slice_get, ◌≡◌, ◌<◌, true, length, map};
ghost use Rattle.fleet_history.specs.History.{robots};
ghost use Rattle.fleet_history.specs.Legal.{is_done};
ghost use Rattle.fleet_core.specs.Hooks.{AreArrivals, AreFarewells, spare_laws, IsLeft};
ghost use Rattle.fleet_core.specs.Calls.{AnswersTick, AnswersShut};

use crate::faults::{ShutFault, TickFault, TickReport};
use crate::kernel::Core;
use crate::world_opening::MOST_ROBOTS;
use fleet_history::RobotState;
use fleet_hooks::{ArrivalHook, Farewell, StampLaw, TieHook, TieLaw};
use std::alloc::{Alloc, Allocator, Global};

/// The closures of a world's robots, for a holder that keeps them next to the core. Each call that takes both first
/// checks that the closures have the laws of the core's history; for what `World::apart` returns this always holds.
#[derive(Drop)]
pub struct RobotHooks<A: Allocator + Copy = Global> {
    /// One for each robot, called once for each neighbour of its cell in each step.
    pub ties: Vec<TieHook, A>,
    /// One for each robot, called at each arrival.
    pub arrivals: Vec<ArrivalHook, A>,
    /// One for each robot, until it is called.
    pub farewells: Vec<Option<Farewell>, A>,
}

fn tie_at(ties: &[TieHook], r: usize) -> TieLaw
    requires { r < length ties.now }
    ensures { slice_get (map (λ h. h.law) ties.now) r ≡ Some result }
{
    ties[r].law()
}

fn law_at(laws: &[TieLaw], r: usize) -> TieLaw
    requires { r < length laws.now }
    ensures { slice_get laws.now r ≡ Some result }
{
    laws[r]
}

fn arrival_at(arrivals: &[ArrivalHook], r: usize) -> StampLaw
    requires { r < length arrivals.now }
    ensures { slice_get (map (λ h. h.law) arrivals.now) r ≡ Some result }
{
    arrivals[r].law()
}

fn arrival_law_at<A: Allocator + Copy>(robots: &[RobotState<A>], r: usize) -> StampLaw
    requires { r < length robots.now }
    ensures { slice_get (map (λ x. x.arrival_law) robots.now) r ≡ Some result }
{
    robots[r].arrival_law
}

fn farewell_at(farewells: &[Option<Farewell>], r: usize) -> Option<StampLaw>
    requires { r < length farewells.now }
    ensures { slice_get (spare_laws farewells.now) r ≡ Some result }
{
    match &farewells[r] {
        Some(farewell) => Some(farewell.law()),
        None => None,
    }
}

fn farewell_law_at<A: Allocator + Copy>(robots: &[RobotState<A>], r: usize) -> StampLaw
    requires { r < length robots.now }
    ensures { slice_get (map (λ x. x.farewell_law) robots.now) r ≡ Some result }
{
    robots[r].farewell_law
}

fn is_tie_law(a: TieLaw, b: TieLaw) -> bool
    ensures { result ≡ true → a ≡ b }
{
    are_same(a.low, b.low) && are_same(a.high, b.high)
}

/// Whether these are the same ranks. They are compared as one word, since `==` of arrays is a search of slices, which
/// takes 130 instructions.
fn are_same(a: [u8; 4], b: [u8; 4]) -> bool
    ensures { result ≡ true → a ≡ b }
{
    u32::from_le_bytes(a) == u32::from_le_bytes(b)
}

fn is_stamp_law(a: StampLaw, b: StampLaw) -> bool
    ensures { result ≡ true → a ≡ b }
{
    a == b
}

/// Whether the closures have these laws, one by one.
pub(crate) fn are_ties(ties: &[TieHook], laws: &[TieLaw]) -> bool
    ensures { result ≡ true → map (λ h. h.law) ties.now ≡ laws.now }
{
    if ties.len() != laws.len() {
        return false;
    }
    for r in 0..ties.len() {
        let found = tie_at(ties, r);
        let wanted = law_at(laws, r);
        if !is_tie_law(found, wanted) {
            return false;
        }
    }
    true
}

/// Whether the closures have the laws of the robots' arrivals, one by one.
fn are_arrivals<A: Allocator + Copy>(arrivals: &[ArrivalHook], robots: &[RobotState<A>]) -> bool
    ensures { result ≡ true → map (λ h. h.law) arrivals.now ≡ map (λ x. x.arrival_law) robots.now }
{
    if arrivals.len() != robots.len() {
        return false;
    }
    for r in 0..arrivals.len() {
        let found = arrival_at(arrivals, r);
        let wanted = arrival_law_at(robots, r);
        if !is_stamp_law(found, wanted) {
            return false;
        }
    }
    true
}

impl<A: Allocator + Copy> Core<A> {
    /// Whether the closures have the laws of the robots' farewells, and each robot that did not say farewell yet has
    /// its own.
    fn has_farewells(&self, farewells: &[Option<Farewell>]) -> bool
        ensures { result ≡ true → AreFarewells self.now.history (spare_laws farewells.now) }
    {
        let robots = self.chapter().opening.robots.as_slice();
        if farewells.len() != robots.len() || robots.len() > MOST_ROBOTS {
            return false;
        }
        for r in 0..farewells.len() {
            let found = farewell_at(farewells, r);
            let wanted = farewell_law_at(robots, r);
            if !self.may_have(r as u32, found, wanted) {
                return false;
            }
        }
        true
    }

    /// Whether the robot's farewell closure has the robot's law; or, if no closure is left, whether the robot has said
    /// farewell.
    fn may_have(&self, robot: u32, found: Option<StampLaw>, wanted: StampLaw) -> bool
        requires { robot < robots self.now.history }
        ensures { result ≡ true → IsLeft found wanted (is_done self.now.history robot) }
    {
        match found {
            Some(law) => is_stamp_law(law, wanted),
            None => self.is_done(robot),
        }
    }

    /// Whether the closures are of the robots' laws.
    fn has_all(&self, by: &RobotHooks<A>) -> bool
        ensures ties { result ≡ true → map (λ h. h.law) by.now.ties.items ≡ self.now.ties }
        ensures arrivals { result ≡ true → AreArrivals self.now.history (map (λ h. h.law) by.now.arrivals.items) }
        ensures farewells { result ≡ true → AreFarewells self.now.history (spare_laws by.now.farewells.items) }
    {
        if !are_ties(by.ties.as_slice(), self.tie_laws()) {
            return false;
        }
        if !are_arrivals(
            by.arrivals.as_slice(),
            self.chapter().opening.robots.as_slice(),
        ) {
            return false;
        }
        self.has_farewells(by.farewells.as_slice())
    }

    /// Shuts a robot, as a world does, with the closures next to the core.
    pub fn shut_by(&mut self, by: &mut RobotHooks<A>, robot: u32) -> Result<Option<u32>, ShutFault>
        ensures { AnswersShut self.old robot result self.new }
    {
        if !self.has_farewells(by.farewells.as_slice()) {
            return self.no_shut(robot);
        }
        self.shut(robot, &mut by.farewells)
    }

    /// Why the robot is not shut.
    fn no_shut(&self, robot: u32) -> Result<Option<u32>, ShutFault>
        ensures { AnswersShut self.now robot result self.now }
    {
        if robot as usize >= self.robots() {
            return Err(ShutFault::NoRobot);
        }
        if self.is_shut(robot) {
            return Err(ShutFault::Already);
        }
        if self.is_full() {
            return Err(ShutFault::ChapterFull);
        }
        Err(ShutFault::NoMemory)
    }

    /// Moves all robots by one step, as a world does, with the closures next to the core.
    pub fn tick_by<R: Alloc<A = A>>(
        &mut self,
        rt: &R,
        by: &mut RobotHooks<A>,
    ) -> Result<TickReport, TickFault>
        ensures { AnswersTick self.old result self.new }
    {
        if !self.has_all(by) {
            return self.no_tick();
        }
        self.tick(
            rt,
            by.ties.as_slice(),
            by.arrivals.as_slice(),
            &mut by.farewells,
        )
    }

    /// Why no tick is made.
    pub(crate) fn no_tick(&self) -> Result<TickReport, TickFault>
        ensures { AnswersTick self.now result self.now }
    {
        if self.is_spent() {
            return Err(TickFault::ClockSpent);
        }
        if self.is_full() {
            return Err(TickFault::ChapterFull);
        }
        Err(TickFault::NoMemory)
    }
}
