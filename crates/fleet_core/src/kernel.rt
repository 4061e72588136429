//! The core of a world: its map, limits and history, and everything that follows from these. It has no closures.

ghost use Rattle.std.specs.Prelude.{IsTrue, MatchOption, IsSome, IfSome, ◌≡◌, ◌+◌, ◌≤◌, ◌<◌, ◌^◌, ◌↔◌, ℕ, true, false, None, length, IfOk};
ghost use Rattle.fleet_bound.specs.Arriving.{IsIdleWithin};
ghost use Rattle.fleet_bound.specs.Bound.{KeepsBound, WaitsAreBounded, wait_bound};
ghost use Rattle.fleet_bound.specs.Idle.{idle_ticks, longest_after};
ghost use Rattle.fleet_grid.specs.Counts.{floor_count};
ghost use Rattle.fleet_grid.specs.Floor.{IsNeighbour};
ghost use Rattle.fleet_grid.specs.Walk.{IsBridgeless};
ghost use Rattle.fleet_history.specs.History.{history_of, owed, clients, robots, clock, place, unfinished, is_shut};
ghost use Rattle.fleet_history.specs.Laws.{EachTick};
ghost use Rattle.fleet_history.specs.Legal.{IsLegal, is_done, is_none_left};
ghost use Rattle.fleet_history.specs.Notices.{noticed_count};
ghost use Rattle.fleet_history.specs.Waits.{wait};
ghost use Rattle.fleet_pibt.specs.Eldest.{IsEldest};
ghost use Rattle.fleet_planner.specs.Planned.{waits};
ghost use Rattle.fleet_planner.specs.Aimed.{IsIdle};
ghost use Rattle.fleet_bound.specs.Roomy.{AdvancesIfRoomy, HasBound};
ghost use Rattle.mover.specs.Moving.{IsPlannedAs};
ghost use Rattle.fleet_core.specs.Opening.{CanOpen};
ghost use Rattle.fleet_core.specs.Core.{ServesInTurns, opened_world, pending, HasEntries, HasNoEntries};

use crate::hook_laws::HookLaws;
use crate::mailbox::Mailboxes;
use crate::opening::beginning_at;
use fleet_book::Limits;
use fleet_bound::{idle_within, longest_queue};
use fleet_grid::Grid;
use fleet_history::Chapter;
use fleet_hooks::TieLaw;
use fleet_planner::{eldest, is_nobody};
use fleet_state::FleetState;
use mover::Mover;
use std::alloc::{AllocError, Allocator, Global};
use std::marker::Model;
use std::mem;
use std::thread::Threads;

/// The map, the limits, the history and what follows from it. Contracts see the map, the limits, the chapter's number,
/// the history, and each client's mailbox.
#[derive(Drop)]
pub struct Core<A: Allocator + Copy = Global> {
    pub(crate) grid: Grid<A>,
    pub(crate) limits: Limits,
    pub(crate) ties: Vec<TieLaw, A>,
    pub(crate) chapter: Chapter<A>,
    pub(crate) state: FleetState<A>,
    pub(crate) planner: Mover<A>,
    pub(crate) mailboxes: Mailboxes<A>,
}

impl<A: Allocator + Copy> Model for Core<A> {
    ghost use Rattle.fleet_history.specs.History.{history_of};
    ghost use Rattle.fleet_core.specs.Core.{World};
    ghost use Rattle.fleet_core.specs.inside.Kept.{IsKept};

    ghost Value = { World A };

    ghost view = { λ w. record {
      floor = w.grid;
      limits = w.limits;
      ties = w.ties.items;
      turns = w.planner.turns;
      number = w.chapter.number;
      history = history_of w.chapter;
      mailboxes = w.mailboxes.boxes;
    } };

    ghost invariant = { λ w. IsKept w.grid w.limits w.ties.items w.chapter.number (history_of w.chapter) w.state w.planner w.mailboxes };
}

impl<A: Allocator + Copy> Core<A> {
    /// The core at the opening of its world, with the laws of its closures.
    pub fn open(
        alloc: A,
        grid: Grid<A>,
        starts: Vec<u32, A>,
        clients: u32,
        limits: Limits,
        laws: HookLaws<A>,
    ) -> Result<Core<A>, AllocError>
        requires { CanOpen grid starts.items clients limits laws }
        ensures { IfOk result (λ w. w ≡ opened_world grid starts.items clients limits laws) }
    {
        match beginning_at(alloc, &grid, starts.as_slice(), clients, limits, &laws) {
            Ok(begun) => Ok(Core {
                grid,
                limits,
                ties: laws.ties,
                chapter: Chapter {
                    number: 0,
                    opening: begun.opening,
                    entries: Vec::new(alloc),
                },
                state: begun.state,
                planner: begun.planner,
                mailboxes: begun.mailboxes,
            }),
            Err(fault) => {
                // By a call: a drop that goes unsaid is proved anew, list by list.
                mem::drop(grid);
                Err(fault)
            }
        }
    }

    pub fn placement(&self) -> &[u32]
        ensures { result.now ≡ place self.now.history }
    {
        self.state.place()
    }

    pub fn clock(&self) -> u64
        ensures { result ≡ clock self.now.history }
    {
        self.state.clock()
    }

    pub fn chapter(&self) -> &Chapter<A>
        ensures history { history_of result.now ≡ self.now.history }
        ensures number { result.now.number ≡ self.now.number }
        ensures legal { IsLegal self.now.floor self.now.history }
        ensures few { length self.now.history.entries ≤ self.now.limits.chapter }
        ensures counts { (c : ℕ) → c < clients self.now.history → noticed_count self.now.history c + owed self.now.history c ≤ 2 ^ 57 }
        ensures pending { (c : ℕ) → c < clients self.now.history → length (pending self.now c).notices + owed self.now.history c ≤ 2 ^ 57 }
        ensures planned { EachTick (IsPlannedAs self.now.turns self.now.floor self.now.ties) self.now.history }
        ensures advancing { self.now.turns ≡ None → AdvancesIfRoomy self.now.floor self.now.history }
        ensures bounded { self.now.turns ≡ None → HasBound self.now.floor self.now.history → WaitsAreBounded self.now.floor self.now.history }
        ensures served { ServesInTurns self.now.turns self.now.floor self.now.history }
        ensures keeps_bound { self.now.turns ≡ None → HasBound self.now.floor self.now.history → KeepsBound self.now.floor self.now.history }
    {
        &self.chapter
    }

    pub fn wait_of(&self, robot: u32) -> Option<u64>
        requires { robot < robots self.now.history }
        ensures wait { result ≡ wait self.now.history robot }
        ensures bounded { self.now.turns ≡ None → HasBound self.now.floor self.now.history → IfSome result (λ w. w < wait_bound self.now.floor self.now.history) }
    {
        self.state.wait_of(robot)
    }

    pub fn eldest(&self) -> Option<u32>
        ensures { MatchOption result (IsIdle self.now.history) (λ e. IsEldest (waits self.now.history) e) }
    {
        eldest(self.state.waits())
    }

    pub fn is_idle(&self) -> bool
        ensures { IsTrue result ↔ IsIdle self.now.history }
    {
        is_nobody(self.state.waits())
    }

    /// The number of ticks after which no robot has an errand, if no order is taken meanwhile: (length of the longest
    /// queue) times (number of robots) times (the most edges that a walk can have). `None` on a map with a bridge.
    pub fn idle_within(&self) -> Option<u64>
        ensures told { IsSome result ↔ IsBridgeless (IsNeighbour self.now.floor) }
        ensures exact { IfSome result (λ ticks. ticks ≡ idle_ticks (longest_after self.now.history) (robots self.now.history) (floor_count self.now.floor)) }
        ensures idle { IfSome result (λ ticks. IsIdleWithin self.now.floor self.now.history ticks) }
    {
        idle_within(
            longest_queue(self.state.queues()),
            self.state.robots(),
            self.grid.floor_count(),
            self.planner.is_bridgeless(),
        )
    }

    pub fn is_bridgeless(&self) -> bool
        ensures { IsTrue result ↔ IsBridgeless (IsNeighbour self.now.floor) }
    {
        self.planner.is_bridgeless()
    }

    /// Keeps the fields of goals that no robot has any more, up to this many bytes; the default is 256 MiB. This
    /// changes only the time and the memory that a take or a tick needs.
    pub fn keep(&mut self, bytes: usize)
        ensures { self.new ≡ self.old }
    {
        self.planner.keep(bytes);
    }

    /// How many bytes the fields take that are kept: a byte for each cell of each.
    pub fn kept_bytes(&self) -> u64 {
        self.planner.kept_bytes() as u64
    }

    pub fn limits(&self) -> &Limits
        ensures { result.now ≡ self.now.limits }
    {
        &self.limits
    }

    /// The number of robots, 1 to 512.
    pub fn robots(&self) -> usize
        ensures { result ≡ robots self.now.history }
    {
        self.state.robots()
    }

    /// The number of clients, 1 to 64.
    pub fn clients(&self) -> usize
        ensures { result ≡ clients self.now.history }
    {
        self.state.clients()
    }

    /// Whether the robot refuses further errands.
    pub(crate) fn is_shut(&self, robot: u32) -> bool
        requires { robot < robots self.now.history }
        ensures { result ≡ is_shut self.now.history robot }
    {
        self.state.is_shut(robot)
    }

    /// Whether the robot is shut and has no errands.
    pub(crate) fn is_done(&self, robot: u32) -> bool
        requires { robot < robots self.now.history }
        ensures { result ≡ is_done self.now.history robot }
    {
        self.is_shut(robot) && self.has_no_errand(robot)
    }

    /// Its map and its history.
    pub fn finish(self) -> (Grid<A>, Chapter<A>)
        ensures floor { result.0 ≡ self.floor }
        ensures history { history_of result.1 ≡ self.history }
        ensures number { result.1.number ≡ self.number }
        ensures legal { IsLegal self.floor self.history }
        ensures planned { EachTick (IsPlannedAs self.turns self.floor self.ties) self.history }
        ensures advancing { self.turns ≡ None → AdvancesIfRoomy self.floor self.history }
        ensures bounded { self.turns ≡ None → HasBound self.floor self.history → WaitsAreBounded self.floor self.history }
        ensures served { ServesInTurns self.turns self.floor self.history }
    {
        // Each by a call: a drop that goes unsaid is proved anew, list by list.
        mem::drop(self.state);
        mem::drop(self.planner);
        mem::drop(self.mailboxes);
        (self.grid, self.chapter)
    }

    /// Whether all ticks were made.
    pub(crate) fn is_spent(&self) -> bool
        ensures spent { result ≡ true → clock self.now.history ≡ self.now.limits.clock }
        ensures early { result ≡ false → clock self.now.history < self.now.limits.clock }
    {
        self.state.clock() >= self.limits.clock
    }

    /// Whether the chapter has all its entries.
    pub(crate) fn is_full(&self) -> bool
        ensures full { result ≡ true → HasNoEntries self.now }
        ensures room { result ≡ false → HasEntries self.now }
    {
        self.chapter.entries.len() >= self.limits.chapter as usize
    }

    /// The laws of the robots' tie closures, by robot.
    pub fn tie_laws(&self) -> &[TieLaw]
        ensures { result.now ≡ self.now.ties }
    {
        self.ties.as_slice()
    }

    /// Whether the robot has no errand.
    pub(crate) fn has_no_errand(&self, robot: u32) -> bool
        requires { robot < robots self.now.history }
        ensures { result ≡ is_none_left (unfinished self.now.history robot) }
    {
        match self.state.front(robot) {
            Some(_front) => false,
            None => true,
        }
    }
}

impl<A: Allocator + Copy + Send + Sync> Core<A> {
    /// Searches, in parallel, the fields of the robots' next errands to cells that were robots' goals lately and are
    /// none now, and keeps as many as fit. Fields of other goals grow when they are needed. This changes only the time
    /// and the memory that a take or a tick needs.
    pub fn search_ahead(&mut self, rt: &(impl Threads + Sync)) -> Result<(), AllocError>
        ensures { self.new ≡ self.old }
    {
        let alloc = *self.chapter.entries.allocator();
        self.planner
            .search_ahead(rt, alloc, &self.grid, &self.state)
    }
}
