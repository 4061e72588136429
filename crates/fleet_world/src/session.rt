//! A world, and the orders and notices of its clients that wait.

ghost use Rattle.std.specs.Prelude.{◌≡◌, ◌≤◌, ◌<◌, ◌^◌, ◌+◌, ◌↔◌, [], None, IfOk, OnOk, OnErr, Err, replicate, length, vec_len};
ghost use Rattle.fleet_history.specs.History.{clients as client_count, history_of};
ghost use Rattle.fleet_history.specs.Laws.{EachTick};
ghost use Rattle.fleet_history.specs.Legal.{IsLegal};
ghost use Rattle.mover.specs.Moving.{IsPlannedAs};
ghost use Rattle.fleet_bound.specs.Bound.{WaitsAreBounded};
ghost use Rattle.fleet_bound.specs.Roomy.{AdvancesIfRoomy, HasBound};
ghost use Rattle.fleet_core.specs.Core.{ServesInTurns, TakesTurns, opened_world, next_world};
ghost use Rattle.fleet_core.specs.Hooks.{laws_of, AreOrderly};
ghost use Rattle.fleet_core.specs.Opening.{CanOpen};
ghost use Rattle.fleet_core.specs.OpeningFaults.{IsRefused, IsNamed};
ghost use Rattle.fleet_world.specs.Talk.{none_waiting, talk_of, opened_talk, quiet_talk, next_talk};

use crate::waiting::Waiting;
use fleet_book::Limits;
use fleet_core::{ChapterFault, NoTurns, OpenFault, World};
use fleet_grid::Grid;
use fleet_history::Chapter;
use fleet_hooks::Hooks;
use std::alloc::{AllocError, Allocator, Global};

/// A world, and for each client the orders that wait to be taken and the notices that wait to be collected. Its memory
/// is bounded by the limits and the map, whatever was done before.
#[derive(Drop)]
pub struct Session<A: Allocator + Copy = Global> {
    pub world: World<A>,
    /// By client.
    pub waiting: Vec<Waiting<A>, A>,
    ghost count: { vec_len waiting ≡ client_count world.core.history },
}

impl<A: Allocator + Copy> Session<A> {
    /// Opens a world, whose clients did nothing yet. Refused as `World::open`.
    pub fn open(
        alloc: A,
        grid: Grid<A>,
        starts: Vec<u32, A>,
        clients: u32,
        limits: Limits,
        hooks: Hooks<A>,
    ) -> Result<Session<A>, OpenFault>
        // Of each call: the checker lets closures come from another crate only in a call with a `requires`.
        requires { clients < 2 ^ 32 }
        ensures refused { (fault : _) → IsNamed fault → ((result ≡ Err fault) ↔ IsRefused grid starts.items clients limits (laws_of hooks) fault) }
        ensures can { OnOk result (CanOpen grid starts.items clients limits (laws_of hooks)) }
        ensures orderly { OnOk result (AreOrderly (laws_of hooks)) }
        ensures ok { IfOk result (λ s. talk_of s.world.core s.waiting.items ≡ opened_talk grid starts.items clients limits (laws_of hooks)) }
    {
        let world = match World::open(alloc, grid, starts, clients, limits, hooks) {
            Ok(world) => world,
            Err(fault) => return Err(fault),
        };
        match nothing_waits(alloc, clients as usize) {
            Ok(waiting) => Ok(Session { world, waiting }),
            Err(AllocError) => {
                let_go(world);
                Err(OpenFault::NoMemory)
            }
        }
    }

    /// A session over a world that was opened before, for example one that goes on from a chapter that was kept. No
    /// order and no notice waits.
    ///
    /// The only fault is out of memory; the world is dropped then.
    pub fn over(alloc: A, world: World<A>) -> Result<Session<A>, AllocError>
        // Of each call: the checker lets closures come from another crate only in a call with a `requires`.
        requires { 0 ≤ world.core.number }
        ensures { IfOk result (λ s. talk_of s.world.core s.waiting.items ≡ quiet_talk world.core) }
    {
        match nothing_waits(alloc, world.clients()) {
            Ok(waiting) => Ok(Session { world, waiting }),
            Err(AllocError) => {
                let_go(world);
                Err(AllocError)
            }
        }
    }

    /// Lets the robots take turns from now on, as `World::take_turns` does. The chapter must have no entry yet.
    pub fn take_turns(&mut self) -> Result<(), NoTurns>
        requires { self.old.world.core.history.entries ≡ [] }
        ensures taken { OnOk result (TakesTurns self.old.world.core self.new.world.core) }
        ensures waiting { self.new.waiting ≡ self.old.waiting }
        ensures refused { OnErr result (self.new.world.core ≡ self.old.world.core) }
    {
        self.world.take_turns()
    }

    /// Ends the chapter and returns it. The next one opens with the state that the world is in, and each client's
    /// orders and notices wait on as before.
    ///
    /// Refused in this order: this is the last of the chapters, out of memory.
    pub fn next_chapter(&mut self) -> Result<Chapter<A>, ChapterFault>
        // Of each call: the checker lets closures go to another crate only in a call with a `requires`.
        requires { 0 ≤ self.old.world.core.number }
        ensures book_spent { (result ≡ Err ChapterFault.BookSpent) ↔ (self.old.world.core.number + 1 ≡ self.old.world.core.limits.chapters) }
        ensures history { IfOk result (λ chapter. history_of chapter ≡ self.old.world.core.history) }
        ensures number { IfOk result (λ chapter. chapter.number ≡ self.old.world.core.number) }
        ensures legal { OnOk result (IsLegal self.old.world.core.floor self.old.world.core.history) }
        ensures planned { OnOk result (EachTick (IsPlannedAs self.old.world.core.turns self.old.world.core.floor self.old.world.core.ties) self.old.world.core.history) }
        ensures advancing { OnOk result (self.old.world.core.turns ≡ None → AdvancesIfRoomy self.old.world.core.floor self.old.world.core.history) }
        ensures bounded { OnOk result (self.old.world.core.turns ≡ None → HasBound self.old.world.core.floor self.old.world.core.history →
            WaitsAreBounded self.old.world.core.floor self.old.world.core.history) }
        ensures served { OnOk result (ServesInTurns self.old.world.core.turns self.old.world.core.floor self.old.world.core.history) }
        ensures next { OnOk result (talk_of self.new.world.core self.new.waiting.items ≡ next_talk (talk_of self.old.world.core self.old.waiting.items)) }
        ensures err { OnErr result (talk_of self.new.world.core self.new.waiting.items ≡ talk_of self.old.world.core self.old.waiting.items) }
    {
        self.world.next_chapter()
    }

    /// Ends the session, and returns its map and its last chapter.
    pub fn finish(self) -> (Grid<A>, Chapter<A>)
        ensures floor { result.0 ≡ self.world.core.floor }
        ensures history { history_of result.1 ≡ self.world.core.history }
        ensures number { result.1.number ≡ self.world.core.number }
        ensures legal { IsLegal self.world.core.floor self.world.core.history }
        ensures planned { EachTick (IsPlannedAs self.world.core.turns self.world.core.floor self.world.core.ties) self.world.core.history }
        ensures advancing { self.world.core.turns ≡ None → AdvancesIfRoomy self.world.core.floor self.world.core.history }
        ensures bounded { self.world.core.turns ≡ None → HasBound self.world.core.floor self.world.core.history → WaitsAreBounded self.world.core.floor self.world.core.history }
        ensures served { ServesInTurns self.world.core.turns self.world.core.floor self.world.core.history }
    {
        let Session { world, waiting: _ } = self;
        world.finish()
    }
}

/// Ends a world by a call of its own: the drop is then proved in the world's crate, and not again here for each type in
/// it.
fn let_go<A: Allocator + Copy>(world: World<A>) {
    let _left = world.finish();
}

/// Empty lanes and outlets, for this many clients.
fn nothing_waits<A: Allocator + Copy>(
    alloc: A,
    count: usize,
) -> Result<Vec<Waiting<A>, A>, AllocError>
    ensures items { IfOk result (λ waiting. waiting.items ≡ replicate count none_waiting) }
    ensures len { IfOk result (λ waiting. vec_len waiting ≡ count) }
{
    let mut waiting = Vec::with_capacity(alloc, count)?;
    for _i in 0..count {
        waiting.push_reserved(Waiting::new(alloc));
    }
    Ok(waiting)
}
