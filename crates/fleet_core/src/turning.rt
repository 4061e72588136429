//! Robots that take turns.

ghost use Rattle.std.specs.Prelude.{◌≡◌, [], OnOk, OnErr, is_some};
ghost use Rattle.fleet_core.specs.Core.{TakesTurns};

use crate::kernel::Core;
use crate::world::World;
use mover::{Manner, Mover, NoTurns};
use std::alloc::Allocator;
use std::mem;

impl<A: Allocator + Copy> Core<A> {
    /// Lets the robots take turns from now on, so that errands to all served cells arrive; on a map without bridges
    /// nothing changes. The chapter must have no entry yet.
    ///
    /// Refused if the rooms of the map do not pass their checks, or memory ran out; nothing has changed then.
    pub fn take_turns(&mut self) -> Result<(), NoTurns>
        requires { self.old.history.entries ≡ [] }
        ensures taken { OnOk result (TakesTurns self.old self.new) }
        ensures ties { self.new.ties ≡ self.old.ties }
        ensures history { self.new.history ≡ self.old.history }
        ensures refused { OnErr result (self.new ≡ self.old) }
    {
        let alloc = *self.chapter.entries.allocator();
        let planner = Mover::resume(alloc, &self.grid, &self.state, Manner::Turns)?;
        // By a call: a drop that goes unsaid is proved anew, list by list.
        mem::drop(mem::replace(&mut self.planner, planner));
        Ok(())
    }

    /// Whether the robots take turns.
    pub fn takes_turns(&self) -> bool
        ensures { result ≡ is_some self.now.turns }
    {
        self.planner.takes_turns()
    }
}

impl<A: Allocator + Copy> World<A> {
    /// Lets the robots take turns from now on, as `Core::take_turns` does.
    pub fn take_turns(&mut self) -> Result<(), NoTurns>
        requires { self.old.core.history.entries ≡ [] }
        ensures taken { OnOk result (TakesTurns self.old.core self.new.core) }
        ensures refused { OnErr result (self.new.core ≡ self.old.core) }
    {
        self.core.take_turns()
    }

    /// Whether the robots take turns.
    pub fn takes_turns(&self) -> bool
        ensures { result ≡ is_some self.now.core.turns }
    {
        self.core.takes_turns()
    }
}
