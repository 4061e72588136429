//! The hall under its lock.

ghost use Rattle.std.specs.Prelude.{◌≡◌, ◌+◌, ◌<◌, ◌≤◌, ◌^◌, ◌↔◌, length, None, Err, IfOk, IfErr, IfSome, OnOk, OnErr};
ghost use Rattle.std.specs.List.{sum_by};
ghost use Rattle.fleet_history.specs.History.{history_of, clock, robots};
ghost use Rattle.fleet_history.specs.Legal.{IsLegal};
ghost use Rattle.fleet_history.specs.Laws.{EachTick};
ghost use Rattle.mover.specs.Moving.{IsPlannedAs};
ghost use Rattle.fleet_bound.specs.Bound.{WaitsAreBounded};
ghost use Rattle.fleet_bound.specs.Roomy.{AdvancesIfRoomy, HasBound};
ghost use Rattle.fleet_core.specs.Core.{ServesInTurns};
ghost use Rattle.fleet_core.specs.Hooks.{laws_of};
ghost use Rattle.fleet_core.specs.OpeningFaults.{IsRefused, IsNamed as IsNamedFault};
ghost use Rattle.fleet_office.specs.Views.{IsNamed, AreOn, AreDistinct, cores, world_at};
ghost use Rattle.fleet_office.specs.Since.{IsChapterSince};
ghost use Rattle.fleet_office.specs.Hall.{HallView, IsLawful, Turns, StopsTurn};
ghost use Rattle.fleet_office.specs.Chapters.{IsChapterOf};
ghost use Rattle.fleet_office.specs.Concluded.{AreTold, HasAll, IsLast, IsUnconcluded};
ghost use Rattle.fleet_office.specs.Shown.{Shows};
ghost use Rattle.fleet_office.specs.Shut.{AnswersShut};

use crate::conclude::{ConcludeFault, Final, Home};
use crate::desk::Desk;
use crate::hall::{Hall, HallOf};
use crate::hall_state::HallState;
use crate::look::Look;
use crate::names::OfficeName;
use crate::report::{TurnFault, TurnReport};
use crate::ticker::Ticker;
use fleet_core::{ChapterFault, OpenFault, RobotHooks, ShutFault};
use fleet_grid::Grid;
use fleet_history::Chapter;
use fleet_hooks::Hooks;
use fleet_lanes::Client;
use std::alloc::{Alloc, AllocError, Allocator, Global};
use std::sync::{Mutex, Wait};

/// A hall's parts under their lock.
#[derive(Drop)]
pub struct OfficeOf<X, Y> {
    pub(crate) hall: Mutex<HallOf<X, Y>>,
}

/// The hall under its lock.
pub type Office<N, A = Global> = OfficeOf<HallState<N, A>, RobotHooks<A>>;

impl<N: OfficeName<A>, A: Allocator + Copy> Office<N, A> {
    /// Opens an office over the desk's lanes. Returns it with its clients by number, and with a ticker that has all
    /// 65,536 parts of the ledger.
    ///
    /// Refused as `World::open` is, for the first of these that stands: `Limits`, `NoRobots`, `Start`, `Shared`,
    /// `Hooks`, `NoMemory`.
    pub fn open(
        alloc: A,
        desk: Desk<A>,
        grid: Grid<A>,
        starts: Vec<u32, A>,
        hooks: Hooks<A>,
    ) -> Result<(Office<N, A>, Vec<Client<A>, A>, Ticker<N>), OpenFault>
        requires named { IsNamed desk N.name N.parts N.rings }
        requires start { N.start ≡ world_at desk grid starts.items (laws_of hooks) }
        ensures refused { (fault : _) → IsNamedFault fault →
            ((result ≡ Err fault) ↔ IsRefused grid starts.items (length desk.clients) desk.limits (laws_of hooks) fault) }
        ensures clients { IfOk result (λ r. (r.1.items ≡ desk.clients) × AreOn N.rings (cores r.1.items)) }
        ensures ticker { IfOk result (λ r. r.2 ≡ record { count = 0; parts = 65536 }) }
    {
        match Hall::open(alloc, desk, grid, starts, hooks) {
            Ok((hall, clients, ticker)) => Ok((
                OfficeOf {
                    hall: Mutex::new(hall),
                },
                clients,
                ticker,
            )),
            Err(fault) => Err(fault),
        }
    }

    pub(crate) fn of(hall: Mutex<Hall<N, A>>) -> Office<N, A> {
        OfficeOf { hall }
    }

    /// Ends the office: takes every order that is left in the lanes, and returns the map, the chapter and the notices
    /// that the clients had not collected. It makes no tick, and waits for no thread.
    ///
    /// Refused in this order: `Missing`, a client was not passed; `Twice`, a client was passed twice; `Tickers`, the
    /// number of ticks of tickers that were not passed (a ticker that made no tick need not be passed), which does not
    /// occur if all parts of the ledger are there; `ChapterFull`, an order is left in a lane; `NoMemory`. After the
    /// last two the takes that were made remain, and mailboxes may be wider: by at most their notices, their client's
    /// unfinished errands, and two for each order that was left. No notice is lost: everything is returned for another
    /// call.
    pub fn conclude(
        self,
        alloc: A,
        clients: Vec<Client<A>, A>,
        tickers: Vec<Ticker<N>, A>,
    ) -> Result<Final<A>, (ConcludeFault, Home<N, A>)>
        requires on { AreOn N.rings (cores clients.items) }
        ensures drains { IfOk result (λ f. (h : HallView A) × IsLawful N.rings N.start h.world h.ends h.total
            × IsLast (length N.rings) h (cores clients.items) f.grid f.chapter.number (history_of f.chapter)) }
        ensures legal { IfOk result (λ f. IsLegal f.grid (history_of f.chapter)) }
        ensures since { IfOk result (λ f. IsChapterSince N.start f.grid f.chapter.number (history_of f.chapter)) }
        ensures planned { IfOk result (λ f. EachTick (IsPlannedAs N.start.turns f.grid N.start.ties) (history_of f.chapter)) }
        ensures advancing { IfOk result (λ f. N.start.turns ≡ None → AdvancesIfRoomy f.grid (history_of f.chapter)) }
        ensures bounded { IfOk result (λ f. N.start.turns ≡ None → HasBound f.grid (history_of f.chapter) → WaitsAreBounded f.grid (history_of f.chapter)) }
        ensures served { IfOk result (λ f. ServesInTurns N.start.turns f.grid (history_of f.chapter)) }
        ensures told { IfOk result (λ f. AreTold N.start f.chapter.number (history_of f.chapter) clients.items f.rest.items) }
        ensures tick { IfOk result (λ f. (f.tick ≡ clock (history_of f.chapter)) × (f.tick ≡ sum_by (λ t. t.count) tickers.items)) }
        ensures all { OnOk result (HasAll (length N.rings) clients.items) }
        ensures distinct { OnOk result (AreDistinct (cores clients.items)) }
        ensures err { IfErr result (λ e. (h : HallView A) × IsLawful N.rings N.start h.world h.ends h.total
            × IsUnconcluded (length N.rings) h clients.items tickers.items e.0) }
        ensures back { IfErr result (λ e. (cores e.1.clients.items ≡ cores clients.items) × (e.1.tickers.items ≡ tickers.items)) }
        ensures on { IfErr result (λ e. AreOn N.rings (cores e.1.clients.items)) }
    {
        let OfficeOf { hall } = self;
        let hall = hall.into_inner();
        hall.state.recall_laws();
        hall.conclude(alloc, clients, tickers)
    }

    /// Shuts a robot, in the world as it is when the lock is held: the robot accepts no further errands. Returns the
    /// stamp of its farewell if it has no errand left; otherwise `None`, and a later tick makes the farewell.
    ///
    /// Refused in this order: `NoRobot`, `Already`, `ChapterFull`, `NoMemory`. Nothing has changed then.
    pub fn shut<R: Wait>(&self, rt: &R, robot: u32) -> Result<Option<u32>, ShutFault>
        requires { robot < 2 ^ 32 }
        ensures answer { (h : HallView A) × IsLawful N.rings N.start h.world h.ends h.total × AnswersShut h.world robot result }
        ensures no_robot { (result ≡ Err ShutFault.NoRobot) ↔ (robots N.start.history ≤ robot) }
    {
        let mut held = self.hall.lock(rt);
        let hall = &mut *held;
        hall.state.recall_laws();
        hall.shut(robot)
    }

    /// Returns the current chapter and begins the next, whose opening is the current state.
    ///
    /// Refused in this order: `BookSpent` in the last of the chapters, `NoMemory`. Nothing has changed then.
    pub fn next_chapter<R: Wait>(&self, rt: &R) -> Result<Chapter<A>, ChapterFault>
        requires { 0 ≤ 1 }
        ensures handed { IfOk result (λ chapter. (h : HallView A) × IsChapterOf N.rings N.start h chapter.number (history_of chapter)) }
        ensures spent { (result ≡ Err ChapterFault.BookSpent) →
            (h : HallView A) × IsLawful N.rings N.start h.world h.ends h.total × (h.world.number + 1 ≡ h.world.limits.chapters) }
    {
        let mut held = self.hall.lock(rt);
        let hall = &mut *held;
        hall.state.recall_laws();
        hall.next_chapter()
    }

    /// Returns the current state of the office. Its clock is not below the number of ticks that the ticker made.
    /// `AllocError` if memory runs out.
    pub fn look<R: Alloc<A = A> + Wait>(
        &self,
        rt: &R,
        ticker: &Ticker<N>,
    ) -> Result<Look<A>, AllocError>
        requires { 0 ≤ ticker.now.count }
        ensures tick { IfOk result (λ look. ticker.now.count ≤ look.tick) }
        ensures shown { IfOk result (λ look. (h : HallView A) × IsLawful N.rings N.start h.world h.ends h.total × Shows h.world look) }
    {
        let hall = self.hall.lock(rt);
        let state = &hall.state;
        state.recall_laws();
        state.look_from(rt.alloc(), ticker.ticks())
    }
}

impl<N: OfficeName<A>, A: Allocator + Copy> Office<N, A> {
    /// Makes a turn, of the hall as it is when the lock is held: gives each client's notices, takes at most `lane`
    /// orders of each client, by number, makes one tick, and gives again. A closure that it calls must not call this
    /// office: it would wait for ever.
    ///
    /// Refused for the first of these that occurs: in the takes `ChapterFull`, if an order has no room, and `NoMemory`;
    /// at the tick `ClockSpent`, `ChapterFull`, `NoMemory`. What was given and taken before remains, and the report in
    /// the fault says how much; the ticker does not change.
    pub fn turn<R: Alloc<A = A> + Wait>(
        &self,
        rt: &R,
        ticker: &mut Ticker<N>,
    ) -> Result<TurnReport, TurnFault>
        requires { 0 ≤ ticker.old.count }
        ensures ticker { IfOk result (λ r. (ticker.new ≡ record { count = ticker.old.count + 1; parts = ticker.old.parts })
            × IfSome r.tick (λ t. ticker.new.count ≤ t)) }
        ensures kept { OnErr result (ticker.new ≡ ticker.old) }
        ensures turned { IfOk result (λ r. (h g : HallView A) × IsLawful N.rings N.start h.world h.ends h.total × Turns h r g) }
        ensures stopped { IfErr result (λ e. (h g : HallView A) × IsLawful N.rings N.start h.world h.ends h.total × StopsTurn h e g) }
    {
        let mut held = self.hall.lock(rt);
        turn_held(&mut *held, rt, ticker)
    }
}

/// Makes a turn of the hall, which is locked, and returns what is known of the hall when the lock is given back.
fn turn_held<N: OfficeName<A>, A: Allocator + Copy, R: Alloc<A = A>>(
    hall: &mut Hall<N, A>,
    rt: &R,
    ticker: &mut Ticker<N>,
) -> Result<TurnReport, TurnFault>
    requires { 0 ≤ ticker.old.count }
    ensures ticker { IfOk result (λ r. (ticker.new ≡ record { count = ticker.old.count + 1; parts = ticker.old.parts })
        × IfSome r.tick (λ t. ticker.new.count ≤ t)) }
    ensures kept { OnErr result (ticker.new ≡ ticker.old) }
    ensures turned { IfOk result (λ r. (h g : HallView A) × IsLawful N.rings N.start h.world h.ends h.total × Turns h r g) }
    ensures stopped { IfErr result (λ e. (h g : HallView A) × IsLawful N.rings N.start h.world h.ends h.total × StopsTurn h e g) }
{
    hall.state.recall_laws();
    hall.turn(rt, ticker)
}
