//! All hooks of a fleet.

ghost use Rattle.std.specs.Prelude.{◌≡◌, ◌≢◌, ◌≤◌, [], ◌∷◌, ◌++◌, ◌+◌, map, replicate, take, IfOk, OnOk, OnErr};
ghost use Rattle.std.specs.Prelude.{vec_len, vec_capacity};

use crate::arrival::ArrivalHook;
use crate::farewell::Farewell;
use crate::kind::HookKind;
use crate::tie::TieHook;
use std::alloc::{AllocError, Allocator, Global};

/// The hooks of a fleet: three lists, with one entry for each robot.
#[derive(Drop)]
pub struct Hooks<A: Allocator + Copy = Global> {
    pub ties: Vec<TieHook, A>,
    pub arrivals: Vec<ArrivalHook, A>,
    pub farewells: Vec<Farewell, A>,
}

impl<A: Allocator + Copy> Hooks<A> {
    /// Empty lists, for no robots. Allocates nothing.
    pub fn new(alloc: A) -> Hooks<A>
        ensures ties { result.ties.items ≡ [] }
        ensures arrivals { result.arrivals.items ≡ [] }
        ensures farewells { result.farewells.items ≡ [] }
    {
        Hooks {
            ties: Vec::new(alloc),
            arrivals: Vec::new(alloc),
            farewells: Vec::new(alloc),
        }
    }

    /// The hooks of n robots that are all alike: each has this tie hook, this arrival hook and this farewell, none of
    /// which may be a closure.
    pub fn alike(
        alloc: A,
        robots: usize,
        tie: TieHook,
        arrival: ArrivalHook,
        farewell: Farewell,
    ) -> Result<Hooks<A>, AllocError>
        requires tie { tie.kind ≢ HookKind.Closure }
        requires arrival { arrival.kind ≢ HookKind.Closure }
        requires farewell { farewell.kind ≢ HookKind.Closure }
        ensures ties { IfOk result (λ all. map (λ h. h.law) all.ties.items ≡ replicate robots tie.law) }
        ensures arrivals { IfOk result (λ all. map (λ h. h.law) all.arrivals.items ≡ replicate robots arrival.law) }
        ensures farewells { IfOk result (λ all. map (λ h. h.law) all.farewells.items ≡ replicate robots farewell.law) }
        ensures tie_kinds { IfOk result (λ all. map (λ h. h.kind) all.ties.items ≡ replicate robots tie.kind) }
        ensures arrival_kinds { IfOk result (λ all.
            map (λ h. h.kind) all.arrivals.items ≡ replicate robots arrival.kind) }
        ensures farewell_kinds { IfOk result (λ all.
            map (λ h. h.kind) all.farewells.items ≡ replicate robots farewell.kind) }
    {
        let mut hooks = Hooks::new(alloc);
        hooks.reserve(robots)?;
        for _ in 0..robots {
            hooks.ties.push_reserved(tie.again());
            hooks.arrivals.push_reserved(arrival.again());
            hooks.farewells.push_reserved(farewell.again());
        }
        Ok(hooks)
    }

    /// Adds the hooks of one more robot at the end of each list. If memory runs out, no list changes.
    pub fn push(
        &mut self,
        tie: TieHook,
        arrival: ArrivalHook,
        farewell: Farewell,
    ) -> Result<(), AllocError>
        requires { 0 ≤ vec_len self.old.ties }
        ensures ties { OnOk result (self.new.ties.items ≡ self.old.ties.items ++ tie ∷ []) }
        ensures arrivals { OnOk result (self.new.arrivals.items ≡ self.old.arrivals.items ++ arrival ∷ []) }
        ensures farewells { OnOk result (self.new.farewells.items ≡ self.old.farewells.items ++ farewell ∷ []) }
        ensures same_ties { OnErr result (self.new.ties.items ≡ self.old.ties.items) }
        ensures same_arrivals { OnErr result (self.new.arrivals.items ≡ self.old.arrivals.items) }
        ensures same_farewells { OnErr result (self.new.farewells.items ≡ self.old.farewells.items) }
    {
        self.reserve(1)?;
        self.ties.push_reserved(tie);
        self.arrivals.push_reserved(arrival);
        self.farewells.push_reserved(farewell);
        Ok(())
    }

    /// Reserves memory in each list for the hooks of n more robots.
    fn reserve(&mut self, robots: usize) -> Result<(), AllocError>
        requires { 0 ≤ vec_len self.old.ties }
        ensures ties { self.new.ties.items ≡ self.old.ties.items }
        ensures arrivals { self.new.arrivals.items ≡ self.old.arrivals.items }
        ensures farewells { self.new.farewells.items ≡ self.old.farewells.items }
        ensures room_ties { OnOk result (vec_len self.new.ties + robots ≤ vec_capacity self.new.ties) }
        ensures room_arrivals { OnOk result (vec_len self.new.arrivals + robots ≤ vec_capacity self.new.arrivals) }
        ensures room_farewells { OnOk result (vec_len self.new.farewells + robots ≤ vec_capacity self.new.farewells) }
    {
        self.ties.reserve(robots)?;
        self.arrivals.reserve(robots)?;
        self.farewells.reserve(robots)
    }

    /// Keeps the first n entries of each list, or all if there are fewer.
    pub fn cut(self, robots: usize) -> Hooks<A>
        ensures ties { result.ties.items ≡ take robots self.ties.items }
        ensures arrivals { result.arrivals.items ≡ take robots self.arrivals.items }
        ensures farewells { result.farewells.items ≡ take robots self.farewells.items }
    {
        let mut kept = self;
        kept.ties.truncate(robots);
        kept.arrivals.truncate(robots);
        kept.farewells.truncate(robots);
        kept
    }
}
