//! How a core goes from one chapter of its history to the next.

ghost use Rattle.std.specs.Prelude.{◌≡◌, ◌+◌, ◌↔◌, None, OnOk, OnErr, IfOk};
ghost use Rattle.fleet_bound.specs.Bound.{WaitsAreBounded};
ghost use Rattle.fleet_history.specs.History.{history_of};
ghost use Rattle.fleet_history.specs.Laws.{EachTick};
ghost use Rattle.fleet_history.specs.Legal.{IsLegal};
ghost use Rattle.mover.specs.Moving.{IsPlannedAs};
ghost use Rattle.fleet_bound.specs.Roomy.{AdvancesIfRoomy, HasBound};
ghost use Rattle.fleet_core.specs.Core.{ServesInTurns, next_world};
ghost use Rattle.fleet_core.specs.Hooks.{AreArrivals, AreFarewells};

use crate::faults::ChapterFault;
use crate::kernel::Core;
use fleet_history::Chapter;
use std::alloc::Allocator;
use std::mem;

impl<A: Allocator + Copy> Core<A> {
    /// Returns the current chapter and begins the next, whose opening is the current state.
    pub fn next_chapter(&mut self) -> Result<Chapter<A>, ChapterFault>
        ensures book_spent { (result ≡ Err ChapterFault.BookSpent) ↔ (self.old.number + 1 ≡ self.old.limits.chapters) }
        ensures history { IfOk result (λ chapter. history_of chapter ≡ self.old.history) }
        ensures number { IfOk result (λ chapter. chapter.number ≡ self.old.number) }
        ensures legal { OnOk result (IsLegal self.old.floor self.old.history) }
        ensures planned { OnOk result (EachTick (IsPlannedAs self.old.turns self.old.floor self.old.ties) self.old.history) }
        ensures advancing { OnOk result (self.old.turns ≡ None → AdvancesIfRoomy self.old.floor self.old.history) }
        ensures bounded { OnOk result (self.old.turns ≡ None → HasBound self.old.floor self.old.history → WaitsAreBounded self.old.floor self.old.history) }
        ensures served { OnOk result (ServesInTurns self.old.turns self.old.floor self.old.history) }
        ensures next { OnOk result (self.new ≡ next_world self.old) }
        ensures arrivals { (laws : _) → AreArrivals self.old.history laws → AreArrivals self.new.history laws }
        ensures farewells { (spare : _) → AreFarewells self.old.history spare → AreFarewells self.new.history spare }
        ensures err { OnErr result (self.new ≡ self.old) }
    {
        if self.chapter.number + 1 >= self.limits.chapters {
            return Err(ChapterFault::BookSpent);
        }
        let alloc = *self.chapter.entries.allocator();
        let opening = self.state.next_opening(alloc, &self.chapter.opening)?;
        let next = Chapter {
            number: self.chapter.number + 1,
            opening,
            entries: Vec::new(alloc),
        };
        Ok(mem::replace(&mut self.chapter, next))
    }
}
