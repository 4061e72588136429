//! The end of an office.

ghost use Rattle.std.specs.Prelude.{◌≡◌, ◌+◌, ◌<◌, ◌≤◌, ◌⊎◌, ℕ, length, None, Err, IfOk, IfErr, OnOk, OnErr};
ghost use Rattle.std.specs.List.{sum_by};
ghost use Rattle.fleet_history.specs.History.{history_of, clock};
ghost use Rattle.fleet_history.specs.Legal.{IsLegal};
ghost use Rattle.fleet_history.specs.Laws.{EachTick};
ghost use Rattle.mover.specs.Moving.{IsPlannedAs};
ghost use Rattle.fleet_bound.specs.Bound.{WaitsAreBounded};
ghost use Rattle.fleet_bound.specs.Roomy.{AdvancesIfRoomy, HasBound};
ghost use Rattle.fleet_core.specs.Core.{ServesInTurns};
ghost use Rattle.fleet_office.specs.Views.{AreOn, AreDistinct, AreSettled, cores};
ghost use Rattle.fleet_office.specs.Draining.{DrainsFirst};
ghost use Rattle.fleet_office.specs.inside.Leftovers.{AreRooms};
ghost use Rattle.fleet_office.specs.Concluded.{AreHome, HasAll, IsAway, IsMet, AreTold, IsLast, IsUnconcluded};

use crate::hall::{Hall, HallOf};
use crate::hall_state::HallState;
use crate::homing::{missing, twice};
use crate::leftovers::fill;
use crate::names::OfficeName;
use crate::office::Office;
use crate::ticker::Ticker;
use fleet_book::Notice;
use fleet_core::TakeFault;
use fleet_grid::Grid;
use fleet_history::Chapter;
use fleet_lanes::Client;
use std::alloc::{Allocator, Global};
use std::sync::Mutex;
use thiserror::Error;

/// Why an office is not concluded; the first reason that holds is returned.
#[derive(Clone, Copy, Debug, PartialEq, Eq, Error)]
pub enum ConcludeFault {
    /// The client was not handed in.
    #[error("client {0} was not handed in")]
    Missing(u32),
    /// The client was handed in twice.
    #[error("client {0} was handed in twice")]
    Twice(u32),
    /// This many ticks were made by tickers that were not handed in.
    #[error("{0} ticks were made by tickers that were not handed in")]
    Tickers(u64),
    /// The chapter has all the entries that it may have, and an order is left in a lane.
    #[error("the chapter is full, and an order is left in a lane")]
    ChapterFull,
    /// Memory ran out.
    #[error("out of memory")]
    NoMemory,
}

/// What `conclude` returns of an office that is not concluded, for another call.
#[derive(Drop)]
pub struct Home<N: OfficeName<A>, A: Allocator + Copy = Global> {
    pub office: Office<N, A>,
    /// In the order in which they were handed in.
    pub clients: Vec<Client<A>, A>,
    /// In the order in which they were handed in.
    pub tickers: Vec<Ticker<N>, A>,
}

/// What is left of an office that is concluded.
#[derive(Drop)]
pub struct Final<A: Allocator + Copy = Global> {
    pub grid: Grid<A>,
    /// The last chapter.
    pub chapter: Chapter<A>,
    /// The ticks made, in all chapters.
    pub tick: u64,
    /// By client the notices that it had not collected.
    pub rest: Vec<Vec<Notice, A>, A>,
}

impl<N: OfficeName<A>, A: Allocator + Copy> HallState<N, A> {
    /// Whether all clients were handed in, and tickers that together made all ticks.
    fn see_home(
        &mut self,
        clients: &[Client<A>],
        tickers: &mut Vec<Ticker<N>, A>,
    ) -> Result<(), ConcludeFault>
        ensures same { self.new ≡ self.old }
        ensures tickers { tickers.new.items ≡ tickers.old.items }
        ensures ok { OnOk result (AreHome (length N.rings) clients.now tickers.old.items (clock self.old.world.history)) }
        ensures err { IfErr result (λ e. IsAway (length N.rings) clients.now tickers.old.items (clock self.old.world.history) e) }
    {
        if let Some(c) = missing(clients, self.ring_count()) {
            return Err(ConcludeFault::Missing(c));
        }
        if let Some(c) = twice(clients) {
            return Err(ConcludeFault::Twice(c));
        }
        let made = self.ticks_by(tickers);
        let tick = self.clock();
        if made < tick {
            return Err(ConcludeFault::Tickers(tick - made));
        }
        Ok(())
    }

    /// Takes every order that is left in the lanes, and reserves memory for the notices that the clients had not
    /// collected.
    fn wind_down(
        &mut self,
        alloc: A,
        clients: &mut [Client<A>],
    ) -> Result<Vec<Vec<Notice, A>, A>, ConcludeFault>
        requires on { AreOn N.rings (cores clients.old) }
        requires distinct { AreDistinct (cores clients.old) }
        ensures clients { cores clients.new ≡ cores clients.old }
        ensures total { self.new.total ≡ self.old.total }
        ensures settled { OnOk result (AreSettled self.new.ends clients.new) }
        ensures drains { OnOk result (DrainsFirst (length N.rings) self.old.ends (cores clients.old) self.old.world self.new.world) }
        ensures rooms { IfOk result (λ v. AreRooms v.items self.new.world clients.new) }
        ensures err { IfErr result (λ e. IsMet (length N.rings) self.old.ends (cores clients.old) self.old.world self.new.world e) }
    {
        match self.drain_all(clients) {
            Ok(()) => {}
            Err(TakeFault::ChapterFull) => return Err(ConcludeFault::ChapterFull),
            Err(_) => return Err(ConcludeFault::NoMemory),
        }
        match self.rooms(alloc, clients) {
            Ok(rooms) => Ok(rooms),
            Err(_) => Err(ConcludeFault::NoMemory),
        }
    }

    /// The map, the chapter, the ticks made, and what the clients had not collected.
    fn finish(self, clients: Vec<Client<A>, A>, rooms: Vec<Vec<Notice, A>, A>) -> Final<A>
        requires on { AreOn N.rings (cores clients.items) }
        requires distinct { AreDistinct (cores clients.items) }
        requires settled { AreSettled self.ends clients.items }
        requires rooms { AreRooms rooms.items self.world clients.items }
        ensures floor { result.grid ≡ self.world.floor }
        ensures history { history_of result.chapter ≡ self.world.history }
        ensures number { result.chapter.number ≡ self.world.number }
        ensures legal { IsLegal result.grid (history_of result.chapter) }
        ensures planned { EachTick (IsPlannedAs self.world.turns result.grid self.world.ties) (history_of result.chapter) }
        ensures advancing { self.world.turns ≡ None → AdvancesIfRoomy result.grid (history_of result.chapter) }
        ensures bounded { self.world.turns ≡ None → HasBound result.grid (history_of result.chapter) → WaitsAreBounded result.grid (history_of result.chapter) }
        ensures served { ServesInTurns self.world.turns result.grid (history_of result.chapter) }
        ensures told { AreTold N.start result.chapter.number (history_of result.chapter) clients.items result.rest.items }
        ensures tick { result.tick ≡ clock self.world.history }
    {
        let HallState {
            mut core,
            ends: _,
            book: _,
        } = self;
        let mut clients = clients;
        let mut rest = rooms;
        fill(&mut core, clients.as_mut_slice(), &mut rest);
        let tick = core.clock();
        let (grid, chapter) = core.finish();
        Final {
            grid,
            chapter,
            tick,
            rest,
        }
    }
}

impl<N: OfficeName<A>, A: Allocator + Copy> Hall<N, A> {
    /// Concludes the hall: takes every order that is left in the lanes, and returns the map, the chapter and what the
    /// clients had not collected. It makes no tick.
    pub fn conclude(
        self,
        alloc: A,
        clients: Vec<Client<A>, A>,
        tickers: Vec<Ticker<N>, A>,
    ) -> Result<Final<A>, (ConcludeFault, Home<N, A>)>
        requires on { AreOn N.rings (cores clients.items) }
        ensures drains { IfOk result (λ f. IsLast (length N.rings) self.state (cores clients.items) f.grid f.chapter.number (history_of f.chapter)) }
        ensures legal { IfOk result (λ f. IsLegal f.grid (history_of f.chapter)) }
        ensures planned { IfOk result (λ f. EachTick (IsPlannedAs self.state.world.turns f.grid self.state.world.ties) (history_of f.chapter)) }
        ensures advancing { IfOk result (λ f. self.state.world.turns ≡ None → AdvancesIfRoomy f.grid (history_of f.chapter)) }
        ensures bounded { IfOk result (λ f. self.state.world.turns ≡ None → HasBound f.grid (history_of f.chapter) → WaitsAreBounded f.grid (history_of f.chapter)) }
        ensures served { IfOk result (λ f. ServesInTurns self.state.world.turns f.grid (history_of f.chapter)) }
        ensures told { IfOk result (λ f. AreTold N.start f.chapter.number (history_of f.chapter) clients.items f.rest.items) }
        ensures tick { IfOk result (λ f. (f.tick ≡ clock (history_of f.chapter)) × (f.tick ≡ sum_by (λ t. t.count) tickers.items)) }
        ensures all { OnOk result (HasAll (length N.rings) clients.items) }
        ensures home { OnOk result (AreHome (length N.rings) clients.items tickers.items (clock self.state.world.history)) }
        ensures err { IfErr result (λ e. IsUnconcluded (length N.rings) self.state clients.items tickers.items e.0) }
        ensures back { IfErr result (λ e. (cores e.1.clients.items ≡ cores clients.items) × (e.1.tickers.items ≡ tickers.items)) }
        ensures on { IfErr result (λ e. AreOn N.rings (cores e.1.clients.items)) }
    {
        let mut hall = self;
        let mut clients = clients;
        let mut tickers = tickers;
        hall.state.recall_laws();
        if let Err(fault) = hall.state.see_home(clients.as_slice(), &mut tickers) {
            return Err((fault, come_home(hall, clients, tickers)));
        }
        let rooms = match hall.state.wind_down(alloc, clients.as_mut_slice()) {
            Ok(rooms) => rooms,
            Err(fault) => return Err((fault, come_home(hall, clients, tickers))),
        };
        hall.state.recall_laws();
        let HallOf { state, robots: _ } = hall;
        Ok(state.finish(clients, rooms))
    }
}

fn come_home<N: OfficeName<A>, A: Allocator + Copy>(
    hall: Hall<N, A>,
    clients: Vec<Client<A>, A>,
    tickers: Vec<Ticker<N>, A>,
) -> Home<N, A>
    ensures { (result.clients.items ≡ clients.items) × (result.tickers.items ≡ tickers.items) }
{
    Home {
        office: Office::of(Mutex::new(hall)),
        clients,
        tickers,
    }
}
