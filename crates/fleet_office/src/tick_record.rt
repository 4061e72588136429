//! A turn that shows the tick it made.

ghost use Rattle.std.specs.Prelude.{◌≡◌, ◌+◌, ◌≤◌, [], length, vec_capacity, IfOk, IfErr, IfSome, OnErr};
ghost use Rattle.fleet_history.specs.History.{clock, place};
ghost use Rattle.fleet_office.specs.Hall.{HallView, IsLawful, Turns, StopsTurn, given_count};
ghost use Rattle.fleet_office.specs.Shown.{IsLastTick};
ghost use Rattle.fleet_office.specs.inside.LastTicks.{EndsInTick, IsEndOf};
ghost use Rattle.fleet_office.specs.Views.{TickView};

use crate::hall::Hall;
use crate::hall_state::HallState;
use crate::names::OfficeName;
use crate::office::Office;
use crate::report::{TurnFault, TurnReport};
use crate::ticker::Ticker;
use fleet_core::RobotHooks;
use fleet_history::{Arrival, Bye, Entry};
use std::alloc::{Alloc, AllocError, Allocator, Global};
use std::marker::Model;
use std::sync::Wait;

/// No office has more robots.
const MOST_ROBOTS: usize = 512;

/// What the last tick that was written into it did: where the robots went, which arrived and which said farewell. It
/// has room for any tick of any office, so that writing into it never fails.
#[derive(Drop)]
pub struct TickRecord<A: Allocator + Copy = Global> {
    tick: u64,
    placement: Vec<u32, A>,
    arrived: Vec<Arrival, A>,
    farewells: Vec<Bye, A>,
}

impl<A: Allocator + Copy> Model for TickRecord<A> {
    ghost use Rattle.std.specs.Prelude.{◌≤◌, vec_capacity};
    ghost use Rattle.fleet_office.specs.Views.{TickView};

    ghost Value = { TickView };

    ghost view = { λ t. record { tick = t.tick; placement = t.placement.items; arrived = t.arrived.items; farewells = t.farewells.items } };

    ghost invariant = { λ t. (512 ≤ vec_capacity t.placement) × (512 ≤ vec_capacity t.arrived) × (512 ≤ vec_capacity t.farewells) };
}

impl<A: Allocator + Copy> TickRecord<A> {
    /// A record of no tick yet.
    pub fn new(alloc: A) -> Result<TickRecord<A>, AllocError>
        ensures { IfOk result (λ t. t ≡ record { tick = 0; placement = []; arrived = []; farewells = [] }) }
    {
        Ok(TickRecord {
            tick: 0,
            placement: Vec::with_capacity(alloc, MOST_ROBOTS)?,
            arrived: Vec::with_capacity(alloc, MOST_ROBOTS)?,
            farewells: Vec::with_capacity(alloc, MOST_ROBOTS)?,
        })
    }

    /// The ticks made so far, with this one; 0 where none was written.
    pub fn tick(&self) -> u64
        ensures { result ≡ self.now.tick }
    {
        self.tick
    }

    /// The robots' cells after it, by number.
    pub fn placement(&self) -> &[u32]
        ensures { result.now ≡ self.now.placement }
    {
        self.placement.as_slice()
    }

    /// Who arrived in it, sorted by robot.
    pub fn arrived(&self) -> &[Arrival]
        ensures { result.now ≡ self.now.arrived }
    {
        self.arrived.as_slice()
    }

    /// Who said farewell in it, sorted by robot.
    pub fn farewells(&self) -> &[Bye]
        ensures { result.now ≡ self.now.farewells }
    {
        self.farewells.as_slice()
    }

    /// Writes the last of these entries, which is a tick.
    fn write(&mut self, tick: u64, entries: &[Entry<A>])
        requires { EndsInTick entries.now }
        ensures tick { self.new.tick ≡ tick }
        ensures end { IsEndOf entries.now self.new }
    {
        let Some(
            Entry::Tick {
                to,
                arrived,
                farewells,
            },
        ) = entries.last()
        else {
            return;
        };
        self.tick = tick;
        refill(&mut self.placement, to.as_slice());
        refill(&mut self.arrived, arrived.as_slice());
        refill(&mut self.farewells, farewells.as_slice());
    }
}

/// Puts these items, for which there is room, into the list in place of its own.
fn refill<T: Copy + Drop, A: Allocator + Copy>(list: &mut Vec<T, A>, items: &[T])
    requires { length items.now ≤ vec_capacity list.old }
    ensures items { list.new.items ≡ items.now }
    ensures capacity { vec_capacity list.old ≤ vec_capacity list.new }
{
    list.clear();
    let _ = list.extend_from_slice(items);
}

impl<N: OfficeName<A>, A: Allocator + Copy> HallState<N, A> {
    /// A turn, whose tick is written into the record.
    pub fn turn_into<R: Alloc<A = A>>(
        &mut self,
        rt: &R,
        by: &mut RobotHooks<A>,
        ticker: &mut Ticker<N>,
        made: &mut TickRecord<A>,
    ) -> Result<TurnReport, TurnFault>
        ensures ok { IfOk result (λ r. Turns self.old r self.new × IsLastTick self.new.world made.new) }
        ensures given { IfOk result (λ r. given_count self.new ≡ given_count self.old + r.given) }
        ensures ticker { IfOk result (λ r. (ticker.new ≡ record { count = ticker.old.count + 1; parts = ticker.old.parts })
            × IfSome r.tick (λ t. ticker.new.count ≤ t)) }
        ensures err { IfErr result (λ e. StopsTurn self.old e self.new) }
        ensures kept { OnErr result ((ticker.new ≡ ticker.old) × (made.new ≡ made.old)) }
    {
        let report = self.turn(rt, by, ticker)?;
        self.recall_laws();
        made.write(self.core.clock(), self.core.chapter().entries.as_slice());
        Ok(report)
    }
}

impl<N: OfficeName<A>, A: Allocator + Copy> Hall<N, A> {
    /// A turn, whose tick is written into the record.
    pub fn turn_into<R: Alloc<A = A>>(
        &mut self,
        rt: &R,
        ticker: &mut Ticker<N>,
        made: &mut TickRecord<A>,
    ) -> Result<TurnReport, TurnFault>
        requires { 0 ≤ ticker.old.count }
        ensures ok { IfOk result (λ r. Turns self.old.state r self.new.state × IsLastTick self.new.state.world made.new) }
        ensures given { IfOk result (λ r. given_count self.new.state ≡ given_count self.old.state + r.given) }
        ensures ticker { IfOk result (λ r. (ticker.new ≡ record { count = ticker.old.count + 1; parts = ticker.old.parts })
            × IfSome r.tick (λ t. ticker.new.count ≤ t)) }
        ensures err { IfErr result (λ e. StopsTurn self.old.state e self.new.state) }
        ensures kept { OnErr result ((ticker.new ≡ ticker.old) × (made.new ≡ made.old)) }
    {
        self.state.turn_into(rt, &mut self.robots, ticker, made)
    }
}

impl<N: OfficeName<A>, A: Allocator + Copy> Office<N, A> {
    /// Makes a turn, as `turn` does, and writes its tick into the record before the lock is given back. So with several
    /// tickers too it is the tick of this turn. Refused as `turn` is; the record then does not change.
    pub fn turn_into<R: Alloc<A = A> + Wait>(
        &self,
        rt: &R,
        ticker: &mut Ticker<N>,
        made: &mut TickRecord<A>,
    ) -> Result<TurnReport, TurnFault>
        requires { 0 ≤ ticker.old.count }
        ensures ticker { IfOk result (λ r. (ticker.new ≡ record { count = ticker.old.count + 1; parts = ticker.old.parts })
            × IfSome r.tick (λ t. ticker.new.count ≤ t)) }
        ensures kept { OnErr result ((ticker.new ≡ ticker.old) × (made.new ≡ made.old)) }
        ensures turned { IfOk result (λ r. (h g : HallView A) × IsLawful N.rings N.start h.world h.ends h.total
            × Turns h r g × IsLastTick g.world made.new) }
        ensures stopped { IfErr result (λ e. (h g : HallView A) × IsLawful N.rings N.start h.world h.ends h.total × StopsTurn h e g) }
    {
        let mut held = self.hall.lock(rt);
        let hall = &mut *held;
        hall.state.recall_laws();
        hall.turn_into(rt, ticker, made)
    }
}
