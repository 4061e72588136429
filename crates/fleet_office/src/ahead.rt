//! Fields that are searched between turns.

ghost use Rattle.std.specs.Prelude.{◌≡◌, ◌≤◌};

use crate::hall::Hall;
use crate::hall_state::HallState;
use crate::names::OfficeName;
use crate::office::Office;
use std::alloc::{AllocError, Allocator};
use std::sync::Wait;
use std::thread::Threads;

impl<N: OfficeName<A>, A: Allocator + Copy> HallState<N, A> {
    /// Keeps the fields of goals that no robot has any more, up to this many bytes.
    pub fn keep(&mut self, bytes: usize)
        ensures { self.new ≡ self.old }
    {
        self.core.keep(bytes);
    }
}

impl<N: OfficeName<A>, A: Allocator + Copy> Hall<N, A> {
    /// Keeps the fields of goals that no robot has any more, up to this many bytes.
    pub fn keep(&mut self, bytes: usize)
        requires { 0 ≤ self.old.state.total }
        ensures { self.new.state ≡ self.old.state }
    {
        self.state.keep(bytes);
    }
}

impl<N: OfficeName<A>, A: Allocator + Copy> Office<N, A> {
    /// Keeps the fields of goals that no robot has any more, up to this many bytes; 256 MiB where nothing is said. What
    /// is kept shows in nothing but the time and the memory that a turn needs.
    pub fn keep<R: Wait>(&self, rt: &R, bytes: usize)
        requires { 0 ≤ 1 }
    {
        let mut held = self.hall.lock(rt);
        let hall = &mut *held;
        hall.keep(bytes);
    }
}

impl<N: OfficeName<A>, A: Allocator + Copy + Send + Sync> HallState<N, A> {
    /// Searches the fields of the robots' next errands side by side, where they do not grow.
    pub fn search_ahead<R: Threads + Sync>(&mut self, rt: &R) -> Result<(), AllocError>
        ensures { self.new ≡ self.old }
    {
        self.core.search_ahead(rt)
    }
}

impl<N: OfficeName<A>, A: Allocator + Copy + Send + Sync> Hall<N, A> {
    /// Searches the fields of the robots' next errands side by side, where they do not grow.
    pub fn search_ahead<R: Threads + Sync>(&mut self, rt: &R) -> Result<(), AllocError>
        requires { 0 ≤ self.old.state.total }
        ensures { self.new.state ≡ self.old.state }
    {
        self.state.search_ahead(rt)
    }
}

impl<N: OfficeName<A>, A: Allocator + Copy + Send + Sync> Office<N, A> {
    /// Searches the fields of the robots' next errands side by side, in as many threads as there are processors, and
    /// keeps as many as fit: a later turn takes them from there. Goals that no robot had lately are left out, since
    /// their fields grow. They show in nothing but the time and the memory that a turn needs. `AllocError` if memory
    /// runs out; nothing has changed then.
    ///
    /// A ticker calls it after a turn, while there is time until the next: it holds the lock meanwhile. Clients wait
    /// for no lock.
    pub fn search_ahead<R: Threads + Sync + Wait>(&self, rt: &R) -> Result<(), AllocError>
        requires { 0 ≤ 1 }
    {
        let mut held = self.hall.lock(rt);
        let hall = &mut *held;
        hall.search_ahead(rt)
    }
}
