//! The world, as its callers see it.

ghost use Rattle.std.specs.Prelude.{◌≡◌, ◌+◌, ◌≤◌, ◌<◌, ◌^◌, ◌↔◌, ℕ, None, true, false, OnOk, OnErr, IfOk, IsTrue, map, slice_get, length};
ghost use Rattle.fleet_bound.specs.Arriving.{ArrivesInTurn};
ghost use Rattle.fleet_bound.specs.Bound.{KeepsBound, WaitsAreBounded};
ghost use Rattle.fleet_history.specs.History.{history_of, owed, clients, robots, clock, place, is_shut};
ghost use Rattle.fleet_grid.specs.Floor.{IsNeighbour};
ghost use Rattle.fleet_grid.specs.Walk.{IsBridgeless};
ghost use Rattle.fleet_history.specs.Laws.{EachTick};
ghost use Rattle.fleet_history.specs.Legal.{IsLegal};
ghost use Rattle.fleet_history.specs.Notices.{noticed_count};
ghost use Rattle.mover.specs.Moving.{IsPlannedAs};
ghost use Rattle.fleet_bound.specs.Roomy.{AdvancesIfRoomy, HasBound};
ghost use Rattle.fleet_core.specs.Hooks.{laws_of, spare_laws, AreOrderly, AreArrivals, AreFarewells};
ghost use Rattle.fleet_core.specs.Opening.{CanOpen};
ghost use Rattle.fleet_core.specs.OpeningFaults.{IsRefused, IsNamed};
ghost use Rattle.fleet_core.specs.Resuming.{CanResume, resumed_world};
ghost use Rattle.fleet_core.specs.Core.{ServesInTurns, Takes, Ticks, Shuts, pending, without_first, widened, next_world, opened_world, HasRoom, HasNoRoom, HasEntries, HasNoEntries};

use crate::faults::{ChapterFault, OpenFault, ShutFault, TakeFault, TickFault, TickReport};
use crate::hook_laws::HookLaws;
use crate::kernel::Core;
use crate::robot_hooks::RobotHooks;
use crate::world_opening::{opening_fault, robots_of};
use fleet_book::{Limits, Notice, Order, Verdict};
use fleet_grid::Grid;
use fleet_history::{Chapter, Opening};
use fleet_hooks::Hooks;
use std::alloc::{Alloc, AllocError, Allocator, Global};

/// A world: robots on a map, the clients whose orders they carry out, one history, and the robots' closures.
#[derive(Drop)]
pub struct World<A: Allocator + Copy = Global> {
    /// Its map, limits, history and mailboxes.
    pub core: Core<A>,
    robots: RobotHooks<A>,
    ghost tie_laws: { map (λ h. h.law) robots.ties.items ≡ core.ties },
    ghost arrival_laws: { AreArrivals core.history (map (λ h. h.law) robots.arrivals.items) },
    ghost spare: { AreFarewells core.history (spare_laws robots.farewells.items) },
}

impl<A: Allocator + Copy> World<A> {
    /// Opens a world of `starts.len()` robots, robot r on the cell `starts[r]`, and of this many clients. The closures
    /// are the robots', by number.
    ///
    /// Refused in this order: the limits or the number of clients (1 to 64) out of range, the number of robots (1 to
    /// 512) out of range, a robot that is not on floor, two robots on one cell, a list of closures that does not have
    /// one for each robot, out of memory.
    pub fn open(
        alloc: A,
        grid: Grid<A>,
        starts: Vec<u32, A>,
        clients: u32,
        limits: Limits,
        hooks: Hooks<A>,
    ) -> Result<World<A>, OpenFault>
        ensures refused { (fault : _) → IsNamed fault → ((result ≡ Err fault) ↔ IsRefused grid starts.items clients limits (laws_of hooks) fault) }
        ensures can { OnOk result (CanOpen grid starts.items clients limits (laws_of hooks)) }
        ensures orderly { OnOk result (AreOrderly (laws_of hooks)) }
        ensures ok { IfOk result (λ w. w.core ≡ opened_world grid starts.items clients limits (laws_of hooks)) }
    {
        if let Some(fault) = opening_fault(&grid, starts.as_slice(), clients, limits, &hooks) {
            return Err(fault);
        }
        Ok(World::make(alloc, grid, starts, clients, limits, hooks)?)
    }

    /// The world at its opening.
    pub(crate) fn make(
        alloc: A,
        grid: Grid<A>,
        starts: Vec<u32, A>,
        clients: u32,
        limits: Limits,
        hooks: Hooks<A>,
    ) -> Result<World<A>, AllocError>
        requires { CanOpen grid starts.items clients limits (laws_of hooks) }
        ensures orderly { OnOk result (AreOrderly (laws_of hooks)) }
        ensures ok { IfOk result (λ w. w.core ≡ opened_world grid starts.items clients limits (laws_of hooks)) }
    {
        let laws = HookLaws::of(alloc, &hooks)?;
        let robots = robots_of(alloc, hooks)?;
        // Last, so that no path lets a core go.
        let core = Core::open(alloc, grid, starts, clients, limits, laws)?;
        Ok(World { core, robots })
    }

    /// The world that goes on with the chapter of this number, from its opening and with its robots' closures. Its
    /// mailboxes are empty.
    pub fn resume(
        alloc: A,
        grid: Grid<A>,
        number: u32,
        opening: Opening<A>,
        limits: Limits,
        hooks: Hooks<A>,
    ) -> Result<World<A>, AllocError>
        requires { CanResume grid number opening limits (laws_of hooks) }
        ensures { IfOk result (λ w. w.core ≡ resumed_world grid number opening limits (laws_of hooks)) }
    {
        let laws = HookLaws::of(alloc, &hooks)?;
        let robots = robots_of(alloc, hooks)?;
        // Last, so that no path lets a core go.
        let core = Core::resume(alloc, grid, number, opening, limits, laws)?;
        Ok(World { core, robots })
    }

    /// The core, and the closures next to it.
    pub fn apart(self) -> (Core<A>, RobotHooks<A>)
        requires { 0 ≤ self.core.number }
        ensures core { result.0 ≡ self.core }
        ensures ties { map (λ h. h.law) result.1.ties.items ≡ self.core.ties }
        ensures arrivals { AreArrivals self.core.history (map (λ h. h.law) result.1.arrivals.items) }
        ensures farewells { AreFarewells self.core.history (spare_laws result.1.farewells.items) }
    {
        (self.core, self.robots)
    }

    /// The robots' cells, by number.
    pub fn placement(&self) -> &[u32]
        ensures { result.now ≡ place self.now.core.history }
    {
        self.core.placement()
    }

    /// The ticks made so far.
    pub fn clock(&self) -> u64
        ensures { result ≡ clock self.now.core.history }
    {
        self.core.clock()
    }

    /// The current chapter.
    pub fn chapter(&self) -> &Chapter<A>
        ensures history { history_of result.now ≡ self.now.core.history }
        ensures number { result.now.number ≡ self.now.core.number }
        ensures legal { IsLegal self.now.core.floor self.now.core.history }
        ensures few { length self.now.core.history.entries ≤ self.now.core.limits.chapter }
        ensures counts { (c : ℕ) → c < clients self.now.core.history → noticed_count self.now.core.history c + owed self.now.core.history c ≤ 2 ^ 57 }
        ensures pending { (c : ℕ) → c < clients self.now.core.history → length (pending self.now.core c).notices + owed self.now.core.history c ≤ 2 ^ 57 }
        ensures planned { EachTick (IsPlannedAs self.now.core.turns self.now.core.floor self.now.core.ties) self.now.core.history }
        ensures advancing { self.now.core.turns ≡ None → AdvancesIfRoomy self.now.core.floor self.now.core.history }
        ensures bounded { self.now.core.turns ≡ None → HasBound self.now.core.floor self.now.core.history → WaitsAreBounded self.now.core.floor self.now.core.history }
        ensures served { ServesInTurns self.now.core.turns self.now.core.floor self.now.core.history }
        ensures keeps_bound { self.now.core.turns ≡ None → HasBound self.now.core.floor self.now.core.history → KeepsBound self.now.core.floor self.now.core.history }
    {
        self.core.chapter()
    }

    /// Returns the current chapter and begins the next, whose opening is the current state. Mailboxes stay.
    ///
    /// Refused in this order: this is the last of the chapters, out of memory.
    pub fn next_chapter(&mut self) -> Result<Chapter<A>, ChapterFault>
        // Of each call: the checker lets closures go to another crate only in a call with a `requires`.
        requires { 0 ≤ self.old.core.number }
        ensures book_spent { (result ≡ Err ChapterFault.BookSpent) ↔ (self.old.core.number + 1 ≡ self.old.core.limits.chapters) }
        ensures history { IfOk result (λ chapter. history_of chapter ≡ self.old.core.history) }
        ensures number { IfOk result (λ chapter. chapter.number ≡ self.old.core.number) }
        ensures legal { OnOk result (IsLegal self.old.core.floor self.old.core.history) }
        ensures planned { OnOk result (EachTick (IsPlannedAs self.old.core.turns self.old.core.floor self.old.core.ties) self.old.core.history) }
        ensures advancing { OnOk result (self.old.core.turns ≡ None → AdvancesIfRoomy self.old.core.floor self.old.core.history) }
        ensures bounded { OnOk result (self.old.core.turns ≡ None → HasBound self.old.core.floor self.old.core.history → WaitsAreBounded self.old.core.floor self.old.core.history) }
        ensures served { OnOk result (ServesInTurns self.old.core.turns self.old.core.floor self.old.core.history) }
        ensures next { OnOk result (self.new.core ≡ next_world self.old.core) }
        ensures err { OnErr result (self.new.core ≡ self.old.core) }
    {
        self.core.next_chapter()
    }

    /// The map and the current chapter.
    pub fn finish(self) -> (Grid<A>, Chapter<A>)
        ensures floor { result.0 ≡ self.core.floor }
        ensures history { history_of result.1 ≡ self.core.history }
        ensures number { result.1.number ≡ self.core.number }
        ensures legal { IsLegal self.core.floor self.core.history }
        ensures planned { EachTick (IsPlannedAs self.core.turns self.core.floor self.core.ties) self.core.history }
        ensures advancing { self.core.turns ≡ None → AdvancesIfRoomy self.core.floor self.core.history }
        ensures bounded { self.core.turns ≡ None → HasBound self.core.floor self.core.history → WaitsAreBounded self.core.floor self.core.history }
        ensures served { ServesInTurns self.core.turns self.core.floor self.core.history }
    {
        let World { core, robots: _ } = self;
        core.finish()
    }

    /// The number of robots, 1 to 512.
    pub fn robots(&self) -> usize
        ensures { result ≡ robots self.now.core.history }
    {
        self.core.robots()
    }

    /// The number of clients, 1 to 64.
    pub fn clients(&self) -> usize
        ensures { result ≡ clients self.now.core.history }
    {
        self.core.clients()
    }

    /// Whether the map has no bridge.
    pub fn is_bridgeless(&self) -> bool
        ensures { IsTrue result ↔ IsBridgeless (IsNeighbour self.now.core.floor) }
    {
        self.core.is_bridgeless()
    }

    /// Takes one order of a client, and judges it.
    ///
    /// Refused in this order: the client's mailbox leaves no room, the chapter is full, out of memory.
    pub fn take(&mut self, client: u32, order: Order) -> Result<Verdict, TakeFault>
        requires { client < clients self.old.core.history }
        ensures mailbox_full { (result ≡ Err TakeFault.MailboxFull) ↔ HasNoRoom self.old.core client }
        ensures chapter_full { (result ≡ Err TakeFault.ChapterFull) ↔ (HasRoom self.old.core client × HasNoEntries self.old.core) }
        ensures room { OnOk result (HasRoom self.old.core client) }
        ensures entries { OnOk result (HasEntries self.old.core) }
        ensures ok { IfOk result (λ v. Takes self.old.core client order v self.new.core) }
        // Where errands go to roomy cells each tick of the world is advancing, and what it accepts arrives in its queue's turn.
        ensures arrives { IfOk result (λ v. ArrivesInTurn self.old.core.floor self.old.core.history client order v) }
        ensures err { OnErr result (self.new.core ≡ self.old.core) }
    {
        self.core.take(client, order)
    }

    /// Shuts a robot: it finishes its errands and accepts no more. Answers the farewell's stamp if it has no errands.
    ///
    /// Refused in this order: there is no such robot, it is shut already, the chapter is full, out of memory.
    pub fn shut(&mut self, robot: u32) -> Result<Option<u32>, ShutFault>
        requires { robot < 2 ^ 32 }
        ensures no_robot { (result ≡ Err ShutFault.NoRobot) ↔ (robots self.old.core.history ≤ robot) }
        ensures already { (result ≡ Err ShutFault.Already) ↔ ((robot < robots self.old.core.history) × (is_shut self.old.core.history robot ≡ true)) }
        ensures chapter_full { (result ≡ Err ShutFault.ChapterFull) ↔
            ((robot < robots self.old.core.history) × (is_shut self.old.core.history robot ≡ false) × HasNoEntries self.old.core) }
        ensures entries { OnOk result (HasEntries self.old.core) }
        ensures ok { IfOk result (λ farewell. Shuts self.old.core robot farewell self.new.core) }
        ensures err { OnErr result (self.new.core ≡ self.old.core) }
    {
        self.core.shut(robot, &mut self.robots.farewells)
    }

    /// The first notice in the client's mailbox.
    pub fn next_notice(&self, client: u32) -> Option<Notice>
        requires { client < clients self.now.core.history }
        ensures { result ≡ slice_get (pending self.now.core client).notices 0 }
    {
        self.core.next_notice(client)
    }

    /// The number of notices in the client's mailbox.
    pub fn pending_count(&self, client: u32) -> usize
        requires { client < clients self.now.core.history }
        ensures { result ≡ length (pending self.now.core client).notices }
    {
        self.core.pending_count(client)
    }

    /// Lets a client's mailbox hold this many more notices and unfinished errands, at most 2^60 in all.
    pub fn widen(&mut self, client: u32, extra: u64) -> Result<(), AllocError>
        requires client { client < clients self.old.core.history }
        requires small { (pending self.old.core client).limit + extra ≤ 2 ^ 60 }
        ensures ok { OnOk result (self.new.core ≡ widened self.old.core client extra) }
        ensures err { OnErr result (self.new.core ≡ self.old.core) }
    {
        self.core.widen(client, extra)
    }

    /// Keeps the fields of goals that no robot has any more, up to this many bytes; the default is 256 MiB. This
    /// changes only the time and the memory that a take or a tick needs.
    pub fn keep(&mut self, bytes: usize)
        ensures { self.new.core ≡ self.old.core }
    {
        self.core.keep(bytes);
    }

    /// Takes the first notice out of a client's mailbox.
    pub fn give(&mut self, client: u32) -> Option<Notice>
        requires { client < clients self.old.core.history }
        ensures notice { result ≡ slice_get (pending self.old.core client).notices 0 }
        ensures rest { self.new.core ≡ without_first self.old.core client }
    {
        self.core.give(client)
    }

    /// Moves all robots by one step.
    ///
    /// Refused in this order: the ticks are spent, the chapter is full, out of memory.
    pub fn tick<R: Alloc<A = A>>(&mut self, rt: &R) -> Result<TickReport, TickFault>
        // Of each call: the checker lets closures go to another crate only in a call with a `requires`.
        requires { 0 ≤ self.old.core.number }
        ensures clock_spent { (result ≡ Err TickFault.ClockSpent) ↔ (clock self.old.core.history ≡ self.old.core.limits.clock) }
        ensures chapter_full { (result ≡ Err TickFault.ChapterFull) ↔
            ((clock self.old.core.history < self.old.core.limits.clock) × HasNoEntries self.old.core) }
        ensures early { OnOk result (clock self.old.core.history < self.old.core.limits.clock) }
        ensures entries { OnOk result (HasEntries self.old.core) }
        ensures ok { IfOk result (λ report. Ticks self.old.core report self.new.core) }
        ensures err { OnErr result (self.new.core ≡ self.old.core) }
    {
        self.core.tick(
            rt,
            self.robots.ties.as_slice(),
            self.robots.arrivals.as_slice(),
            &mut self.robots.farewells,
        )
    }
}
