//! What is entered in a core's history: takes, ticks and shuts.

ghost use Rattle.std.specs.Prelude.{◌≡◌, ◌≤◌, ◌<◌, ◌++◌, ◌∷◌, ◌↔◌, [], true, false, OnOk, OnErr, IfOk, map, vec_len, vec_capacity};
ghost use Rattle.fleet_bound.specs.Arriving.{ArrivesInTurn};
ghost use Rattle.fleet_planner.specs.Courses.{goals_of};
ghost use Rattle.fleet_history.specs.History.{after, clients, robots, clock, is_shut};
ghost use Rattle.fleet_planner.specs.Aimed.{MayBegin, begun, begun_goals};
ghost use Rattle.fleet_core.specs.Hooks.{AreArrivals, AreFarewells, spare_laws};
ghost use Rattle.fleet_core.specs.Core.{Takes, Ticks, Shuts, HasRoom, HasNoRoom, HasEntries, HasNoEntries};
ghost use Rattle.fleet_core.specs.Calls.{AnswersTick, HasLeastStamps};
ghost use Rattle.fleet_core.specs.inside.Ready.{IsOnSame};
ghost use Rattle.fleet_core.specs.inside.Stamped.{AreClosures};
ghost use Rattle.fleet_state.specs.State.{robot_count};
ghost use Rattle.mover.specs.Moving.{HasTurns};

use crate::faults::{ShutFault, TakeFault, TickFault, TickReport};
use crate::kernel::Core;
use crate::robot_hooks::are_ties;
use crate::stamps::last_word_if;
use crate::tick_draft::{TickDraft, ready};
use fleet_book::{Order, Verdict};
use fleet_grid::Grid;
use fleet_history::{Entry, Row};
use fleet_hooks::{ArrivalHook, Farewell, FarewellView, TieHook};
use fleet_state::FleetState;
use mover::Mover;
use std::alloc::{Alloc, AllocError, Allocator};

impl<A: Allocator + Copy> Core<A> {
    /// Whether the client's notices and unfinished errands leave room for two more.
    fn has_room(&self, client: u32) -> bool
        requires { client < clients self.now.history }
        ensures yes { result ≡ true → HasRoom self.now client }
        ensures no { result ≡ false → HasNoRoom self.now client }
    {
        self.mailboxes.len_of(client) as u64 + self.state.owed(client) + 2
            <= self.mailboxes.limit_of(client)
    }

    /// Takes an order of a client, and judges it.
    pub fn take(&mut self, client: u32, order: Order) -> Result<Verdict, TakeFault>
        requires { client < clients self.old.history }
        ensures mailbox_full { (result ≡ Err TakeFault.MailboxFull) ↔ HasNoRoom self.old client }
        ensures chapter_full { (result ≡ Err TakeFault.ChapterFull) ↔ (HasRoom self.old client × HasNoEntries self.old) }
        ensures room { OnOk result (HasRoom self.old client) }
        ensures entries { OnOk result (HasEntries self.old) }
        ensures ok { IfOk result (λ v. Takes self.old client order v self.new) }
        ensures arrives { IfOk result (λ v. ArrivesInTurn self.old.floor self.old.history client order v) }
        ensures err { OnErr result (self.new ≡ self.old) }
        ensures farewells { (spare : _) → AreFarewells self.old.history spare → AreFarewells self.new.history spare }
    {
        if !self.has_room(client) {
            return Err(TakeFault::MailboxFull);
        }
        if self.is_full() {
            return Err(TakeFault::ChapterFull);
        }
        let verdict = self.state.judge(&self.grid, client, order);
        let entries = &mut self.chapter.entries;
        make_begun(
            entries,
            &mut self.planner,
            &self.grid,
            &self.state,
            order,
            verdict,
        )?;
        self.state.enter_take(client, order, verdict);
        let order_no = self.state.taken(client);
        self.mailboxes.push_verdict(client, order_no, verdict);
        let entry = Entry::Take {
            client,
            order,
            verdict,
        };
        add(&mut self.chapter.entries, entry);
        Ok(verdict)
    }

    /// A shut, with the robot's farewell closure, which is called where the robot has no errands.
    pub fn shut(
        &mut self,
        robot: u32,
        farewells: &mut Vec<Option<Farewell>, A>,
    ) -> Result<Option<u32>, ShutFault>
        requires farewells { AreFarewells self.old.history (spare_laws farewells.old.items) }
        ensures no_robot { (result ≡ Err ShutFault.NoRobot) ↔ (robots self.old.history ≤ robot) }
        ensures already { (result ≡ Err ShutFault.Already) ↔ ((robot < robots self.old.history) × (is_shut self.old.history robot ≡ true)) }
        ensures chapter_full { (result ≡ Err ShutFault.ChapterFull) ↔
            ((robot < robots self.old.history) × (is_shut self.old.history robot ≡ false) × HasNoEntries self.old) }
        ensures entries { OnOk result (HasEntries self.old) }
        ensures ok { IfOk result (λ farewell. Shuts self.old robot farewell self.new) }
        ensures err { OnErr result (self.new ≡ self.old) }
        ensures farewells { AreFarewells self.new.history (spare_laws farewells.new.items) }
    {
        if robot as usize >= self.state.robots() {
            return Err(ShutFault::NoRobot);
        }
        if self.state.is_shut(robot) {
            return Err(ShutFault::Already);
        }
        if self.is_full() {
            return Err(ShutFault::ChapterFull);
        }
        let idle = self.has_no_errand(robot);
        self.chapter.entries.reserve(1)?;
        let view = FarewellView {
            robot,
            cell: self.state.place()[robot as usize],
            tick: self.state.clock(),
        };
        let farewell = last_word_if(idle, farewells, view);
        self.state.enter_shut(robot);
        add(&mut self.chapter.entries, Entry::Shut { robot, farewell });
        Ok(farewell)
    }

    /// A tick, with the robots' closures. Those for arrivals and farewells are called when nothing can fail any more.
    pub fn tick<R: Alloc<A = A>>(
        &mut self,
        rt: &R,
        ties: &[TieHook],
        arrivals: &[ArrivalHook],
        farewells: &mut Vec<Option<Farewell>, A>,
    ) -> Result<TickReport, TickFault>
        requires ties { map (λ h. h.law) ties.now ≡ self.old.ties }
        requires arrivals { AreArrivals self.old.history (map (λ h. h.law) arrivals.now) }
        requires farewells { AreFarewells self.old.history (spare_laws farewells.old.items) }
        ensures clock_spent { (result ≡ Err TickFault.ClockSpent) ↔ (clock self.old.history ≡ self.old.limits.clock) }
        ensures chapter_full { (result ≡ Err TickFault.ChapterFull) ↔ ((clock self.old.history < self.old.limits.clock) × HasNoEntries self.old) }
        ensures early { OnOk result (clock self.old.history < self.old.limits.clock) }
        ensures entries { OnOk result (HasEntries self.old) }
        ensures ok { IfOk result (λ report. Ticks self.old report self.new) }
        ensures err { OnErr result (self.new ≡ self.old) }
        ensures farewells { AreFarewells self.new.history (spare_laws farewells.new.items) }
    {
        self.tick_as(rt, ties, arrivals, farewells, false)
    }

    /// Moves all robots by one step, as a world does, with tie hooks next to the core. Each arrival and farewell gets
    /// the least stamp that its robot's law allows, so none needs a hook.
    pub fn tick_by_ties<R: Alloc<A = A>>(
        &mut self,
        rt: &R,
        ties: &[TieHook],
    ) -> Result<TickReport, TickFault>
        ensures answer { AnswersTick self.old result self.new }
        ensures least { (e : _) → self.new.history ≡ after self.old.history e → HasLeastStamps self.old.history e }
    {
        if !are_ties(ties, self.tie_laws()) {
            return self.no_tick();
        }
        let mut none = Vec::new(rt.alloc());
        self.tick_as(rt, ties, &[], &mut none, true)
    }

    /// A tick. With `least`, stamps are the least that the robots' laws allow, and only tie closures are called; else
    /// the closures for arrivals and farewells are called too, when nothing can fail any more.
    fn tick_as<R: Alloc<A = A>>(
        &mut self,
        rt: &R,
        ties: &[TieHook],
        arrivals: &[ArrivalHook],
        farewells: &mut Vec<Option<Farewell>, A>,
        least: bool,
    ) -> Result<TickReport, TickFault>
        requires ties { map (λ h. h.law) ties.now ≡ self.old.ties }
        requires closures { least ≡ false → AreClosures self.old.history (map (λ h. h.law) arrivals.now) (spare_laws farewells.old.items) }
        ensures answer { AnswersTick self.old result self.new }
        ensures farewells { least ≡ false → AreFarewells self.new.history (spare_laws farewells.new.items) }
        ensures lowest { least ≡ true → (e : _) → self.new.history ≡ after self.old.history e → HasLeastStamps self.old.history e }
    {
        if self.is_spent() {
            return Err(TickFault::ClockSpent);
        }
        if self.is_full() {
            return Err(TickFault::ChapterFull);
        }
        let planner = &mut self.planner;
        let entries = &mut self.chapter.entries;
        let mut step = ready(rt.alloc(), &self.grid, &self.state, planner, ties, entries)?;
        let robots = self.chapter.opening.robots.as_slice();
        let tick = self.state.clock() + 1;
        let report = step.stamp_as(robots, arrivals, farewells, least, tick);
        self.mailboxes.deliver(&step.arrived, &step.to, tick);
        self.state.enter_tick(&step.to);
        add(&mut self.chapter.entries, tick_entry(step));
        Ok(report)
    }
}

/// Reserves memory for one more entry, and gives the robot of an accepted order its new goal, if the errand is the
/// robot's first.
fn make_begun<A: Allocator + Copy>(
    entries: &mut Vec<Entry<A>, A>,
    planner: &mut Mover<A>,
    grid: &Grid<A>,
    state: &FleetState<A>,
    order: Order,
    verdict: Verdict,
) -> Result<(), AllocError>
    requires may { MayBegin grid.now state.now planner.old.planner order verdict }
    requires turns { HasTurns grid.now (robot_count state.now) planner.old.turns }
    ensures items { entries.new.items ≡ entries.old.items }
    ensures goals { OnOk result (goals_of planner.new.planner.aims ≡ begun_goals (begun state.now.queues order verdict) (goals_of planner.old.planner.aims)) }
    ensures room { OnOk result (vec_len entries.new < vec_capacity entries.new) }
    ensures same { IsOnSame grid.now planner.old planner.new }
    ensures refused { OnErr result (goals_of planner.new.planner.aims ≡ goals_of planner.old.planner.aims) }
{
    entries.reserve(1)?;
    planner.begin(grid, state, order, verdict)
}

/// The tick of a step.
fn tick_entry<A: Allocator + Copy>(step: TickDraft<A>) -> Entry<A>
    ensures { result ≡ Entry.Tick step.to.items step.arrived.items step.leaving.items }
{
    Entry::Tick {
        to: Row::from_vec(step.to),
        arrived: Row::from_vec(step.arrived),
        farewells: Row::from_vec(step.leaving),
    }
}

/// Puts an item after the others, where there is room.
fn add<T: Drop, A: Allocator + Copy>(items: &mut Vec<T, A>, item: T)
    requires { vec_len items.old < vec_capacity items.old }
    ensures { items.new.items ≡ items.old.items ++ item ∷ [] }
{
    let _ = items.push(item);
}
