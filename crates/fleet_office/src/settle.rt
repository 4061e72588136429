//! A turn without its tick, so that no verdict waits for one.

ghost use Rattle.std.specs.Prelude.{◌≡◌, ◌+◌, ◌≤◌, IfOk, IfErr};
ghost use Rattle.fleet_office.specs.Hall.{HallView, IsLawful, Settles, StopsSettling, given_count};

use crate::hall::Hall;
use crate::hall_state::HallState;
use crate::names::OfficeName;
use crate::office::Office;
use crate::report::{TurnFault, TurnReport, so_far};
use std::alloc::Allocator;
use std::sync::Wait;

impl<N: OfficeName<A>, A: Allocator + Copy> HallState<N, A> {
    /// A turn without its tick: gives all notices, takes the orders, and gives all notices.
    pub fn settle(&mut self) -> Result<TurnReport, TurnFault>
        ensures ok { IfOk result (λ r. Settles self.old r self.new) }
        ensures given { IfOk result (λ r. given_count self.new ≡ given_count self.old + r.given) }
        ensures err { IfErr result (λ e. StopsSettling self.old e self.new) }
    {
        let given = self.give_all();
        match self.take_all() {
            Ok((taken, held)) => {
                let more = self.give_all();
                Ok(so_far(taken, held, given + more))
            }
            Err((cause, taken, held)) => Err(TurnFault {
                cause,
                report: so_far(taken, held, given),
            }),
        }
    }
}

impl<N: OfficeName<A>, A: Allocator + Copy> Hall<N, A> {
    /// A turn without its tick: gives all notices, takes the orders, and gives all notices. `Office::settle` says when
    /// it is refused.
    pub fn settle(&mut self) -> Result<TurnReport, TurnFault>
        requires { 0 ≤ self.old.state.total }
        ensures ok { IfOk result (λ r. Settles self.old.state r self.new.state) }
        ensures given { IfOk result (λ r. given_count self.new.state ≡ given_count self.old.state + r.given) }
        ensures err { IfErr result (λ e. StopsSettling self.old.state e self.new.state) }
    {
        self.state.settle()
    }
}

impl<N: OfficeName<A>, A: Allocator + Copy> Office<N, A> {
    /// A turn without its tick: gives each client's notices, takes at most `lane` orders of each client, by number, and
    /// gives again. So an order has its verdict before the next tick. The report counts no arrivals and has no tick.
    ///
    /// Refused as the takes of a turn are, for the first of these that is met: `ChapterFull`, where an order has no
    /// room, and `NoMemory`. What was given and taken before stands, and the fault's report says how much.
    pub fn settle<R: Wait>(&self, rt: &R) -> Result<TurnReport, TurnFault>
        requires { 0 ≤ 1 }
        ensures settled { IfOk result (λ r. (h g : HallView A) × IsLawful N.rings N.start h.world h.ends h.total × Settles h r g) }
        ensures stopped { IfErr result (λ e. (h g : HallView A) × IsLawful N.rings N.start h.world h.ends h.total × StopsSettling h e g) }
    {
        let mut held = self.hall.lock(rt);
        let hall = &mut *held;
        hall.state.recall_laws();
        hall.settle()
    }
}
