//! The laws of a fleet's closures, apart from the closures.

ghost use Rattle.std.specs.Prelude.{All, ◌≡◌, ◌↔◌, IfOk, OnOk, IsTrue, map};
ghost use Rattle.fleet_hooks.specs.Law.{IsStampLaw};
ghost use Rattle.fleet_core.specs.Hooks.{laws_of, AreOrderly};
ghost use Rattle.fleet_core.specs.Resuming.{AreLawsAt};

use fleet_history::{Opening, RobotState};
use fleet_hooks::{ArrivalHook, Farewell, Hooks, StampLaw, TieHook, TieLaw};
use std::alloc::{AllocError, Allocator, Global};
use std::marker::Model;

/// The laws of a fleet's closures: three lists, by robot. In each law the lower bound is at most the upper one.
#[derive(Drop)]
pub struct HookLaws<A: Allocator + Copy = Global> {
    pub(crate) ties: Vec<TieLaw, A>,
    pub(crate) arrivals: Vec<StampLaw, A>,
    pub(crate) farewells: Vec<StampLaw, A>,
}

impl<A: Allocator + Copy> Model for HookLaws<A> {
    ghost use Rattle.fleet_core.specs.Hooks.{HookLaws, AreOrderly};

    ghost Value = { HookLaws };

    ghost view = { λ laws. record {
      ties = laws.ties.items;
      arrivals = laws.arrivals.items;
      farewells = laws.farewells.items;
    } };

    ghost invariant = { λ laws. AreOrderly (record {
      ties = laws.ties.items;
      arrivals = laws.arrivals.items;
      farewells = laws.farewells.items;
    }) };
}

impl<A: Allocator + Copy> HookLaws<A> {
    /// The laws of these closures.
    pub fn of(alloc: A, hooks: &Hooks<A>) -> Result<HookLaws<A>, AllocError>
        ensures ok { IfOk result (λ laws. laws ≡ laws_of hooks.now) }
        ensures orderly { OnOk result (AreOrderly (laws_of hooks.now)) }
    {
        Ok(HookLaws {
            ties: tie_laws(alloc, hooks.ties.as_slice())?,
            arrivals: arrival_laws(alloc, hooks.arrivals.as_slice())?,
            farewells: farewell_laws(alloc, hooks.farewells.as_slice())?,
        })
    }

    /// Whether these are the laws of the opening's robots.
    pub fn are_at(&self, opening: &Opening<A>) -> bool
        ensures { IsTrue result ↔ AreLawsAt opening.now self.now }
    {
        let robots = opening.robots.as_slice();
        if self.ties.len() != robots.len() {
            return false;
        }
        are_arrivals(self.arrivals.as_slice(), robots)
            && are_farewells(self.farewells.as_slice(), robots)
    }
}

/// Whether these are the laws of the robots' arrivals.
fn are_arrivals<A: Allocator + Copy>(laws: &[StampLaw], robots: &[RobotState<A>]) -> bool
    ensures { IsTrue result ↔ (laws.now ≡ map (λ x. x.arrival_law) robots.now) }
{
    if laws.len() != robots.len() {
        return false;
    }
    for r in 0..laws.len() {
        if laws[r] != robots[r].arrival_law {
            return false;
        }
    }
    true
}

/// Whether these are the laws of the robots' farewells.
fn are_farewells<A: Allocator + Copy>(laws: &[StampLaw], robots: &[RobotState<A>]) -> bool
    ensures { IsTrue result ↔ (laws.now ≡ map (λ x. x.farewell_law) robots.now) }
{
    if laws.len() != robots.len() {
        return false;
    }
    for r in 0..laws.len() {
        if laws[r] != robots[r].farewell_law {
            return false;
        }
    }
    true
}

fn tie_laws<A: Allocator + Copy>(alloc: A, hooks: &[TieHook]) -> Result<Vec<TieLaw, A>, AllocError>
    ensures { IfOk result (λ laws. laws.items ≡ map (λ h. h.law) hooks.now) }
{
    let mut laws = Vec::with_capacity(alloc, hooks.len())?;
    for hook in hooks {
        laws.push_reserved(hook.law());
    }
    Ok(laws)
}

fn arrival_laws<A: Allocator + Copy>(
    alloc: A,
    hooks: &[ArrivalHook],
) -> Result<Vec<StampLaw, A>, AllocError>
    ensures laws { IfOk result (λ laws. laws.items ≡ map (λ h. h.law) hooks.now) }
    ensures orderly { IfOk result (λ laws. All IsStampLaw laws.items) }
{
    let mut laws = Vec::with_capacity(alloc, hooks.len())?;
    for hook in hooks {
        laws.push_reserved(hook.law());
    }
    Ok(laws)
}

fn farewell_laws<A: Allocator + Copy>(
    alloc: A,
    hooks: &[Farewell],
) -> Result<Vec<StampLaw, A>, AllocError>
    ensures laws { IfOk result (λ laws. laws.items ≡ map (λ h. h.law) hooks.now) }
    ensures orderly { IfOk result (λ laws. All IsStampLaw laws.items) }
{
    let mut laws = Vec::with_capacity(alloc, hooks.len())?;
    for hook in hooks {
        laws.push_reserved(hook.law());
    }
    Ok(laws)
}
