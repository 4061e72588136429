//! What an office keeps under its lock.

ghost use Rattle.std.specs.Prelude.{◌≡◌, ◌+◌, ◌<◌, ◌≤◌, ◌^◌, ◌↔◌, true, false, ℕ, length, Err, IfOk, IfErr, IfSome, OnOk, OnErr};
ghost use Rattle.fleet_history.specs.History.{clients, clock, robots, is_shut};
ghost use Rattle.fleet_core.specs.Hooks.{laws_of};
ghost use Rattle.fleet_core.specs.OpeningFaults.{IsRefused, IsNamed as IsNamedFault};
ghost use Rattle.fleet_core.specs.Core.{Shuts, HasRoom, HasNoRoom, HasEntries, HasNoEntries};
ghost use Rattle.fleet_office.specs.Views.{IsNamed, AreOn, cores, world_at};
ghost use Rattle.fleet_office.specs.inside.Openings.{IsUnused};
ghost use Rattle.fleet_office.specs.Hall.{ShowsOrder, TakesOne, GivesAll, given_count, TicksOnce, Turns, StopsTurn, Looks};

use crate::desk::Desk;
use crate::hall_state::HallState;
use crate::names::OfficeName;
use crate::report::{TurnFault, TurnReport};
use crate::ticker::Ticker;
use fleet_book::Verdict;
use fleet_core::{OpenFault, RobotHooks, ShutFault, TakeFault, TickFault, TickReport, World};
use fleet_grid::Grid;
use fleet_hooks::Hooks;
use fleet_lanes::Client;
use std::alloc::{Alloc, Allocator, Global};

/// What an office keeps under its lock, in two parts, so that each can be shown to cross threads by itself.
#[derive(Drop)]
pub struct HallOf<X, Y> {
    pub state: X,
    pub(crate) robots: Y,
}

/// What an office keeps under its lock: the world, the hall's ends of the rings, the count of the ticks, and the
/// robots' closures.
pub type Hall<N, A = Global> = HallOf<HallState<N, A>, RobotHooks<A>>;

impl<N: OfficeName<A>, A: Allocator + Copy> Hall<N, A> {
    /// Takes one order out of the client's lane into the world, and returns its verdict. `None` if none is found.
    ///
    /// Refused in this order: `MailboxFull`, `ChapterFull`, `NoMemory`. The order stays in the lane then.
    pub fn take_one(&mut self, client: u32) -> Result<Option<Verdict>, TakeFault>
        requires { client < length self.old.state.ends }
        ensures ok { IfOk result (λ r. TakesOne self.old.state client r self.new.state) }
        ensures mailbox_full { (result ≡ Err TakeFault.MailboxFull) ↔ (ShowsOrder self.new.state client × HasNoRoom self.old.state.world client) }
        ensures chapter_full { (result ≡ Err TakeFault.ChapterFull) ↔
            (ShowsOrder self.new.state client × HasRoom self.old.state.world client × HasNoEntries self.old.state.world) }
        ensures err { OnErr result (Looks self.old.state self.new.state) }
    {
        self.state.take_one(client)
    }

    /// Gives each client's notices, client by client, until its mailbox is empty or its outlet full. Returns how many
    /// were given.
    pub fn give_all(&mut self) -> u64
        requires { 0 ≤ self.old.state.total }
        ensures gives { GivesAll self.old.state result self.new.state }
        ensures counted { given_count self.new.state ≡ given_count self.old.state + result }
    {
        self.state.give_all()
    }

    /// Shuts a robot. Returns the stamp of its farewell where that was made at once.
    ///
    /// Refused in this order: `NoRobot`, `Already`, `ChapterFull`, `NoMemory`.
    pub fn shut(&mut self, robot: u32) -> Result<Option<u32>, ShutFault>
        requires { robot < 2 ^ 32 }
        ensures ok { IfOk result (λ farewell. Shuts self.old.state.world robot farewell self.new.state.world
            × (self.new.state.ends ≡ self.old.state.ends) × (self.new.state.total ≡ self.old.state.total)) }
        ensures no_robot { (result ≡ Err ShutFault.NoRobot) ↔ (robots self.old.state.world.history ≤ robot) }
        ensures already { (result ≡ Err ShutFault.Already) ↔ ((robot < robots self.old.state.world.history) × (is_shut self.old.state.world.history robot ≡ true)) }
        ensures chapter_full { (result ≡ Err ShutFault.ChapterFull) ↔
            ((robot < robots self.old.state.world.history) × (is_shut self.old.state.world.history robot ≡ false) × HasNoEntries self.old.state.world) }
        ensures entries { OnOk result (HasEntries self.old.state.world) }
        ensures err { OnErr result (self.new.state ≡ self.old.state) }
    {
        self.state.shut(&mut self.robots, robot)
    }

    /// The hall over the desk's lanes, its clients, and a ticker that has all parts of the ledger.
    pub fn open(
        alloc: A,
        desk: Desk<A>,
        grid: Grid<A>,
        starts: Vec<u32, A>,
        hooks: Hooks<A>,
    ) -> Result<(Hall<N, A>, Vec<Client<A>, A>, Ticker<N>), OpenFault>
        requires named { IsNamed desk N.name N.parts N.rings }
        requires start { N.start ≡ world_at desk grid starts.items (laws_of hooks) }
        ensures refused { (fault : _) → IsNamedFault fault →
            ((result ≡ Err fault) ↔ IsRefused grid starts.items (length desk.clients) desk.limits (laws_of hooks) fault) }
        ensures hall { IfOk result (λ r. r.0.state.world ≡ world_at desk grid starts.items (laws_of hooks)) }
        ensures clients { IfOk result (λ r. (r.1.items ≡ desk.clients) × AreOn N.rings (cores r.1.items)) }
        ensures ticker { IfOk result (λ r. r.2 ≡ record { count = 0; parts = 65536 }) }
    {
        let count = desk.clients.len() as u32;
        match World::open(alloc, grid, starts, count, desk.limits, hooks) {
            Ok(world) => Ok(Hall::over(desk, world)),
            Err(fault) => Err(fault),
        }
    }

    /// The hall over the desk's lanes and a world that was just opened, its clients, and a ticker that has all parts of
    /// the ledger.
    fn over(desk: Desk<A>, world: World<A>) -> (Hall<N, A>, Vec<Client<A>, A>, Ticker<N>)
        requires named { IsNamed desk N.name N.parts N.rings }
        requires start { N.start ≡ world.core }
        requires unused { IsUnused world.core }
        requires clients { length desk.clients ≡ clients world.core.history }
        requires limits { desk.limits ≡ world.core.limits }
        ensures hall { result.0.state.world ≡ world.core }
        ensures clients { (result.1.items ≡ desk.clients) × AreOn N.rings (cores result.1.items) }
        ensures ticker { result.2 ≡ record { count = 0; parts = 65536 } }
    {
        let Desk {
            limits: _,
            clients,
            ends,
            blank,
        } = desk;
        let (core, robots) = world.apart();
        // States that the world's chapter is legal.
        let _ = core.chapter();
        let (book, share) = blank.open::<N>();
        let state = HallState::new(core, ends, book);
        let ticker = Ticker::new(65536, share);
        (HallOf { state, robots }, clients, ticker)
    }
}

impl<N: OfficeName<A>, A: Allocator + Copy> Hall<N, A> {
    /// One tick of the world, counted by the ticker.
    ///
    /// Refused in this order: `ClockSpent`, `ChapterFull`, `NoMemory`. Nothing has changed then.
    pub fn tick_with<R: Alloc<A = A>>(
        &mut self,
        rt: &R,
        ticker: &mut Ticker<N>,
    ) -> Result<TickReport, TickFault>
        requires { 0 ≤ ticker.old.count }
        ensures ok { IfOk result (λ r. TicksOnce self.old.state r self.new.state
            × (ticker.new ≡ record { count = ticker.old.count + 1; parts = ticker.old.parts }) × (ticker.new.count ≤ r.tick)) }
        ensures clock_spent { (result ≡ Err TickFault.ClockSpent) ↔ (clock self.old.state.world.history ≡ self.old.state.world.limits.clock) }
        ensures chapter_full { (result ≡ Err TickFault.ChapterFull) ↔
            ((clock self.old.state.world.history < self.old.state.world.limits.clock) × HasNoEntries self.old.state.world) }
        ensures early { OnOk result (clock self.old.state.world.history < self.old.state.world.limits.clock) }
        ensures entries { OnOk result (HasEntries self.old.state.world) }
        ensures err { OnErr result ((self.new.state ≡ self.old.state) × (ticker.new ≡ ticker.old)) }
    {
        self.state.tick_with(rt, &mut self.robots, ticker)
    }

    /// A turn: gives all notices, takes the orders, makes one tick, and gives all notices. `Office::turn` says when it
    /// is refused.
    pub fn turn<R: Alloc<A = A>>(
        &mut self,
        rt: &R,
        ticker: &mut Ticker<N>,
    ) -> Result<TurnReport, TurnFault>
        requires { 0 ≤ ticker.old.count }
        ensures ok { IfOk result (λ r. Turns self.old.state r self.new.state) }
        ensures given { IfOk result (λ r. given_count self.new.state ≡ given_count self.old.state + r.given) }
        ensures ticker { IfOk result (λ r. (ticker.new ≡ record { count = ticker.old.count + 1; parts = ticker.old.parts })
            × IfSome r.tick (λ t. ticker.new.count ≤ t)) }
        ensures err { IfErr result (λ e. StopsTurn self.old.state e self.new.state) }
        ensures kept { OnErr result (ticker.new ≡ ticker.old) }
    {
        self.state.turn(rt, &mut self.robots, ticker)
    }
}
