//! What an office keeps under its lock, without the closures.

ghost use Rattle.std.specs.Prelude.{◌≡◌, ◌+◌, ◌<◌, ◌≤◌, ◌^◌, ◌↔◌, true, false, ℕ, length, Some, None, Err, IfOk, IfErr, IfSome, OnOk, OnErr, slice_get};
ghost use Rattle.fleet_history.specs.History.{clock, place, robots, is_shut, history_of};
ghost use Rattle.std.specs.List.{sum_by};
ghost use Rattle.fleet_history.specs.Legal.{IsLegal};
ghost use Rattle.fleet_history.specs.Laws.{EachTick};
ghost use Rattle.mover.specs.Moving.{IsPlannedAs};
ghost use Rattle.fleet_bound.specs.Bound.{KeepsBound, WaitsAreBounded};
ghost use Rattle.fleet_bound.specs.Roomy.{AdvancesIfRoomy, HasBound};
ghost use Rattle.fleet_core.specs.Core.{ServesInTurns, Shuts, HasRoom, HasNoRoom, HasEntries, HasNoEntries};
ghost use Rattle.fleet_office.specs.Views.{TickerView};
ghost use Rattle.fleet_office.specs.Hall.{HallView, IsLawful, ShowsOrder, TakesOne, GivesOne, GivesAll, given_count, TakesSome, TakesUntil, TakesFirst, StopsTaking, TicksOnce, Turns, StopsTurn, Looks};

use crate::giving::give_from;
use crate::names::OfficeName;
use crate::report::{TurnCause, TurnFault, TurnReport, cause_of, so_far};
use crate::taking::take_from;
use crate::ticker::{Ticker, ticks_of_all};
use fleet_book::Verdict;
use fleet_core::{Core, RobotHooks, ShutFault, TakeFault, TickFault, TickReport};
use fleet_grid::Grid;
use fleet_history::Chapter;
use fleet_lanes::HallEnd;
use std::alloc::{Alloc, Allocator, Global};
use std::marker::Model;
use std::sync::ledger::Book;

/// The world without its closures, the hall's end of each client's rings, and the book of the ticks.
#[derive(Drop)]
pub struct HallState<N: OfficeName<A>, A: Allocator + Copy = Global> {
    pub(crate) core: Core<A>,
    pub(crate) ends: Vec<HallEnd<A>, A>,
    pub(crate) book: Book<N>,
}

impl<N: OfficeName<A>, A: Allocator + Copy> Model for HallState<N, A> {
    ghost use Rattle.fleet_office.specs.Hall.{HallView, IsLawful};

    ghost Value = { HallView A };

    ghost view = { λ h. record { world = h.core; ends = h.ends.items; total = h.book.total } };

    ghost invariant = { λ h. IsLawful N.rings N.start h.core h.ends.items h.book.total };
}

impl<N: OfficeName<A>, A: Allocator + Copy> HallState<N, A> {
    /// A hall without closures, over new lanes.
    pub(crate) fn new(core: Core<A>, ends: Vec<HallEnd<A>, A>, book: Book<N>) -> HallState<N, A>
        requires { IsLawful N.rings N.start core ends.items book.total }
        ensures { result ≡ record { world = core; ends = ends.items; total = book.total } }
    {
        HallState { core, ends, book }
    }

    /// States what always holds, for a proof of its caller. It does nothing.
    pub fn recall_laws(&self)
        ensures lawful { IsLawful N.rings N.start self.now.world self.now.ends self.now.total }
        ensures planned { EachTick (IsPlannedAs self.now.world.turns self.now.world.floor self.now.world.ties) self.now.world.history }
        ensures advancing { self.now.world.turns ≡ None → AdvancesIfRoomy self.now.world.floor self.now.world.history }
        ensures bounded { self.now.world.turns ≡ None → HasBound self.now.world.floor self.now.world.history → WaitsAreBounded self.now.world.floor self.now.world.history }
        ensures served { ServesInTurns self.now.world.turns self.now.world.floor self.now.world.history }
        ensures keeps_bound { self.now.world.turns ≡ None → HasBound self.now.world.floor self.now.world.history → KeepsBound self.now.world.floor self.now.world.history }
    {
        let _ = self.core.chapter();
    }

    /// How many ticks were made.
    pub fn clock(&self) -> u64
        ensures { result ≡ clock self.now.world.history }
    {
        self.core.clock()
    }

    /// Takes one order out of the client's lane into the world.
    pub fn take_one(&mut self, client: u32) -> Result<Option<Verdict>, TakeFault>
        requires { client < length self.old.ends }
        ensures ok { IfOk result (λ r. TakesOne self.old client r self.new) }
        ensures mailbox_full { (result ≡ Err TakeFault.MailboxFull) ↔ (ShowsOrder self.new client × HasNoRoom self.old.world client) }
        ensures chapter_full { (result ≡ Err TakeFault.ChapterFull) ↔ (ShowsOrder self.new client × HasRoom self.old.world client × HasNoEntries self.old.world) }
        ensures err { OnErr result (Looks self.old self.new) }
    {
        take_from(&mut self.core, &mut self.ends[client as usize], client)
    }

    /// Gives the client's notices, until its mailbox is empty or its outlet full.
    pub fn give_one(&mut self, client: u32) -> u64
        requires { client < length self.old.ends }
        ensures { GivesOne self.old client result self.new }
    {
        give_from(&mut self.core, &mut self.ends[client as usize], client)
    }

    /// Gives each client's notices, client by client.
    pub fn give_all(&mut self) -> u64
        ensures all { GivesAll self.old result self.new }
        ensures as_many { length self.new.ends ≡ length self.old.ends }
        ensures counted { given_count self.new ≡ given_count self.old + result }
        ensures few { given_count self.new ≤ 2 ^ 63 }
    {
        let mut count = 0u64;
        for client in 0..self.clients() {
            let given = self.give_one(client);
            self.is_countable();
            count += given;
        }
        self.is_countable();
        count
    }

    /// The number of all notices that were ever given is small enough to be counted.
    fn is_countable(&self)
        ensures { given_count self.now ≤ 2 ^ 63 }
    {
        let _ = self.core.chapter();
    }

    /// The number of clients.
    pub fn clients(&self) -> u32
        ensures count { result ≡ length self.now.ends }
        ensures few { result ≤ 64 }
    {
        self.ends.len() as u32
    }

    /// How many orders of a client one turn takes at most.
    fn lane(&self) -> u32
        ensures value { result ≡ self.now.world.limits.lane }
        ensures small { result ≤ 65536 }
    {
        self.core.limits().lane
    }

    /// Takes at most `lane` orders of the client, until none is found or its mailbox is full. Returns how many were
    /// taken, and whether the mailbox was full.
    fn take_some(&mut self, client: u32) -> Result<(u32, bool), (TurnCause, u32)>
        requires { client < length self.old.ends }
        ensures ok { IfOk result (λ r. TakesSome self.old client r.0 r.1 self.new) }
        ensures small { IfOk result (λ r. r.0 ≤ 65536) }
        ensures err { IfErr result (λ e. TakesUntil self.old client e.1 e.0 self.new) }
        ensures small_err { IfErr result (λ e. e.1 ≤ 65536) }
        ensures as_many { length self.new.ends ≡ length self.old.ends }
    {
        let lane = self.lane();
        for taken in 0..lane {
            match self.take_one(client) {
                Ok(Some(_)) => {}
                Ok(None) => return Ok((taken, false)),
                Err(TakeFault::MailboxFull) => return Ok((taken, true)),
                Err(TakeFault::ChapterFull) => return Err((TurnCause::ChapterFull, taken)),
                Err(TakeFault::NoMemory) => return Err((TurnCause::NoMemory, taken)),
            }
        }
        Ok((lane, false))
    }

    /// Takes each client's orders, client by client.
    pub(crate) fn take_all(&mut self) -> Result<(u32, u32), (TurnCause, u32, u32)>
        ensures ok { IfOk result (λ r. TakesFirst (length self.old.ends) self.old r.0 r.1 self.new) }
        ensures err { IfErr result (λ e. StopsTaking self.old e.1 e.2 e.0 self.new) }
        ensures as_many { length self.new.ends ≡ length self.old.ends }
    {
        let mut taken = 0;
        let mut held = 0;
        for client in 0..self.clients() {
            match self.take_some(client) {
                Ok((more, full)) => {
                    taken += more;
                    held += u32::from(full);
                }
                Err((cause, more)) => return Err((cause, taken + more, held)),
            }
        }
        Ok((taken, held))
    }

    /// Shuts a robot.
    pub fn shut(&mut self, by: &mut RobotHooks<A>, robot: u32) -> Result<Option<u32>, ShutFault>
        requires { robot < 2 ^ 32 }
        ensures ok { IfOk result (λ farewell. Shuts self.old.world robot farewell self.new.world × (self.new.ends ≡ self.old.ends)
            × (self.new.total ≡ self.old.total)) }
        ensures no_robot { (result ≡ Err ShutFault.NoRobot) ↔ (robots self.old.world.history ≤ robot) }
        ensures already { (result ≡ Err ShutFault.Already) ↔ ((robot < robots self.old.world.history) × (is_shut self.old.world.history robot ≡ true)) }
        ensures chapter_full { (result ≡ Err ShutFault.ChapterFull) ↔
            ((robot < robots self.old.world.history) × (is_shut self.old.world.history robot ≡ false) × HasNoEntries self.old.world) }
        ensures entries { OnOk result (HasEntries self.old.world) }
        ensures err { OnErr result (self.new ≡ self.old) }
    {
        self.core.shut_by(by, robot)
    }

    /// The number of rings' names.
    pub(crate) fn ring_count(&self) -> u32
        ensures { result ≡ length N.rings }
    {
        self.ends.len() as u32
    }

    /// How many ticks these tickers made, which are no more than all.
    pub(crate) fn ticks_by(&mut self, tickers: &mut Vec<Ticker<N>, A>) -> u64
        ensures same { self.new ≡ self.old }
        ensures tickers { tickers.new.items ≡ tickers.old.items }
        ensures value { result ≡ sum_by (λ t. t.count) tickers.old.items }
        ensures bound { result ≤ clock self.old.world.history }
        ensures whole { sum_by (λ t. t.parts) tickers.old.items ≡ 65536 → result ≡ clock self.old.world.history }
    {
        let clock = self.core.clock();
        ticks_of_all(&mut self.book, tickers.as_mut_slice(), clock)
    }

    /// The robots' cells, by number.
    pub fn placement(&self) -> &[u32]
        ensures { result.now ≡ place self.now.world.history }
    {
        self.core.placement()
    }
}

impl<N: OfficeName<A>, A: Allocator + Copy> HallState<N, A> {
    /// One tick of the world, counted by the ticker.
    pub fn tick_with<R: Alloc<A = A>>(
        &mut self,
        rt: &R,
        by: &mut RobotHooks<A>,
        ticker: &mut Ticker<N>,
    ) -> Result<TickReport, TickFault>
        requires { 0 ≤ ticker.old.count }
        ensures ok { IfOk result (λ r. TicksOnce self.old r self.new
            × (ticker.new ≡ record { count = ticker.old.count + 1; parts = ticker.old.parts }) × (ticker.new.count ≤ r.tick)) }
        ensures clock_spent { (result ≡ Err TickFault.ClockSpent) ↔ (clock self.old.world.history ≡ self.old.world.limits.clock) }
        ensures chapter_full { (result ≡ Err TickFault.ChapterFull) ↔
            ((clock self.old.world.history < self.old.world.limits.clock) × HasNoEntries self.old.world) }
        ensures early { OnOk result (clock self.old.world.history < self.old.world.limits.clock) }
        ensures entries { OnOk result (HasEntries self.old.world) }
        ensures err { OnErr result ((self.new ≡ self.old) × (ticker.new ≡ ticker.old)) }
    {
        let report = self.core.tick_by(rt, by)?;
        ticker.count_tick(&mut self.book);
        Ok(report)
    }

    /// A turn: gives all notices, takes the orders, makes one tick, and gives all notices.
    pub fn turn<R: Alloc<A = A>>(
        &mut self,
        rt: &R,
        by: &mut RobotHooks<A>,
        ticker: &mut Ticker<N>,
    ) -> Result<TurnReport, TurnFault>
        ensures ok { IfOk result (λ r. Turns self.old r self.new) }
        ensures given { IfOk result (λ r. given_count self.new ≡ given_count self.old + r.given) }
        ensures ticker { IfOk result (λ r. (ticker.new ≡ record { count = ticker.old.count + 1; parts = ticker.old.parts })
            × IfSome r.tick (λ t. ticker.new.count ≤ t)) }
        ensures err { IfErr result (λ e. StopsTurn self.old e self.new) }
        ensures kept { OnErr result (ticker.new ≡ ticker.old) }
    {
        let given = self.give_all();
        let (taken, held) = match self.take_all() {
            Ok(counts) => counts,
            Err((cause, taken, held)) => {
                return Err(TurnFault {
                    cause,
                    report: so_far(taken, held, given),
                });
            }
        };
        match self.tick_with(rt, by, ticker) {
            Ok(report) => {
                let more = self.give_all();
                Ok(TurnReport {
                    taken,
                    held,
                    given: given + more,
                    arrived: report.arrived,
                    tick: Some(report.tick),
                })
            }
            Err(fault) => Err(TurnFault {
                cause: cause_of(fault),
                report: so_far(taken, held, given),
            }),
        }
    }
}
