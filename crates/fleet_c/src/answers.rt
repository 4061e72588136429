//! Ticks and shuts of a core, with fixed answers: the robots' ranks, and 0 as each stamp and farewell.

ghost use Rattle.std.specs.Prelude.{◌≡◌, ◌<◌, ◌≤◌, ◌↔◌, true, false, IfOk, OnErr};
ghost use Rattle.fleet_core.specs.Core.{Shuts, Ticks, HasNoEntries};
ghost use Rattle.fleet_history.specs.History.{clock, robots, is_shut};

use fleet_core::{Core, RobotHooks, ShutFault, TickFault, TickReport};
use fleet_hooks::{Farewell, TieHook};
use std::alloc::{Alloc, Global};

/// A runtime that has only the allocator.
#[derive(Drop)]
struct Heap(Global);

impl Alloc for Heap {
    type A = Global;

    fn alloc(&self) -> Global {
        self.0
    }
}

/// Makes a tick, with the ranks that the core's tie laws give.
pub(crate) fn ticked(alloc: Global, core: &mut Core) -> Result<TickReport, TickFault>
    ensures clock_spent { (result ≡ Err TickFault.ClockSpent) ↔ (clock core.old.history ≡ core.old.limits.clock) }
    ensures chapter_full { (result ≡ Err TickFault.ChapterFull) ↔ ((clock core.old.history < core.old.limits.clock) × HasNoEntries core.old) }
    ensures ok { IfOk result (λ report. Ticks core.old report core.new) }
    ensures err { OnErr result (core.new ≡ core.old) }
{
    // Where memory is refused ranks are missing, and the core refuses the tick.
    let mut ties = Vec::new(alloc);
    let _ = ties.extend(core.tie_laws().iter().map(|law| TieHook::fixed(law.low)));
    core.tick_by_ties(&Heap(alloc), ties.as_slice())
}

/// A shut.
pub(crate) fn shut(alloc: Global, core: &mut Core, robot: u32) -> Result<Option<u32>, ShutFault>
    ensures no_robot { (result ≡ Err ShutFault.NoRobot) ↔ (robots core.old.history ≤ robot) }
    ensures already { (result ≡ Err ShutFault.Already) ↔ ((robot < robots core.old.history) × (is_shut core.old.history robot ≡ true)) }
    ensures chapter_full { (result ≡ Err ShutFault.ChapterFull) ↔
        ((robot < robots core.old.history) × (is_shut core.old.history robot ≡ false) × HasNoEntries core.old) }
    ensures ok { IfOk result (λ farewell. Shuts core.old robot farewell core.new) }
    ensures err { OnErr result (core.new ≡ core.old) }
{
    // Where memory is refused answers are missing, and the core refuses the shut.
    let mut robots = RobotHooks {
        ties: Vec::new(alloc),
        arrivals: Vec::new(alloc),
        farewells: Vec::new(alloc),
    };
    let _ = robots
        .farewells
        .extend(core.tie_laws().iter().map(|_| Some(Farewell::fixed(0))));
    core.shut_by(&mut robots, robot)
}
