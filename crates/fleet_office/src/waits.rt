//! How long an office's robots wait.

ghost use Rattle.std.specs.Prelude.{◌≤◌};
ghost use Rattle.fleet_office.specs.Hall.{HallView, IsLawful};
ghost use Rattle.fleet_office.specs.Shown.{ShowsWaits};

use crate::hall_state::HallState;
use crate::names::OfficeName;
use crate::office::Office;
use std::alloc::Allocator;
use std::sync::Wait;

/// The longest wait, and the limit of all waits.
#[derive(Clone, Copy, Debug, PartialEq, Eq)]
pub struct WaitReport {
    /// How many ticks the eldest robot has waited; `None` if no robot has an errand.
    pub longest: Option<u64>,
    /// A number of ticks that no wait reaches, whatever is posted: (number of robots) times (the most edges that a walk
    /// can have, at least 1). `None` on a map with a bridge.
    pub limit: Option<u64>,
}

impl<N: OfficeName<A>, A: Allocator + Copy> HallState<N, A> {
    /// How long its robots wait.
    pub fn waits(&self) -> WaitReport
        ensures { ShowsWaits self.now.world result }
    {
        self.recall_laws();
        WaitReport {
            longest: self.core.longest_wait(),
            limit: self.core.wait_limit(),
        }
    }
}

impl<N: OfficeName<A>, A: Allocator + Copy> Office<N, A> {
    /// Returns how long the robots wait, as it is when the lock is held.
    pub fn waits<R: Wait>(&self, rt: &R) -> WaitReport
        requires { 0 ≤ 1 }
        ensures { (h : HallView A) × IsLawful N.rings N.start h.world h.ends h.total × ShowsWaits h.world result }
    {
        let hall = self.hall.lock(rt);
        hall.state.recall_laws();
        hall.state.waits()
    }
}
