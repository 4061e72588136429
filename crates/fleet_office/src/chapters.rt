//! How an office goes from one chapter of its history to the next.

ghost use Rattle.std.specs.Prelude.{◌≡◌, ◌+◌, ◌<◌, ◌≤◌, ◌^◌, ◌↔◌, length, None, Ok, Err, OnOk, OnErr, IfOk, IfSome};
ghost use Rattle.fleet_history.specs.History.{history_of};
ghost use Rattle.fleet_history.specs.Laws.{EachTick};
ghost use Rattle.fleet_history.specs.Legal.{IsLegal};
ghost use Rattle.mover.specs.Moving.{IsPlannedAs};
ghost use Rattle.fleet_bound.specs.Bound.{WaitsAreBounded};
ghost use Rattle.fleet_bound.specs.Roomy.{AdvancesIfRoomy, HasBound};
ghost use Rattle.fleet_core.specs.Core.{ServesInTurns};
ghost use Rattle.fleet_office.specs.Chapters.{IsChapterOf, HandsOutGrown};
ghost use Rattle.fleet_office.specs.Hall.{HallView, IsLawful, next_hall};

use crate::hall::Hall;
use crate::hall_state::HallState;
use crate::names::OfficeName;
use crate::office::Office;
use fleet_core::ChapterFault;
use fleet_history::Chapter;
use std::alloc::Allocator;
use std::sync::Wait;

impl<N: OfficeName<A>, A: Allocator + Copy> HallState<N, A> {
    /// Returns the current chapter and begins the next, whose opening is the current state. Rings and mailboxes stay.
    pub fn next_chapter(&mut self) -> Result<Chapter<A>, ChapterFault>
        ensures book_spent { (result ≡ Err ChapterFault.BookSpent) ↔ (self.old.world.number + 1 ≡ self.old.world.limits.chapters) }
        ensures history { IfOk result (λ chapter. history_of chapter ≡ self.old.world.history) }
        ensures number { IfOk result (λ chapter. chapter.number ≡ self.old.world.number) }
        ensures legal { OnOk result (IsLegal self.old.world.floor self.old.world.history) }
        ensures planned { OnOk result (EachTick (IsPlannedAs self.old.world.turns self.old.world.floor self.old.world.ties) self.old.world.history) }
        ensures advancing { OnOk result (self.old.world.turns ≡ None → AdvancesIfRoomy self.old.world.floor self.old.world.history) }
        ensures bounded { OnOk result (self.old.world.turns ≡ None → HasBound self.old.world.floor self.old.world.history → WaitsAreBounded self.old.world.floor self.old.world.history) }
        ensures served { OnOk result (ServesInTurns self.old.world.turns self.old.world.floor self.old.world.history) }
        ensures next { OnOk result (self.new ≡ next_hall self.old) }
        ensures err { OnErr result (self.new ≡ self.old) }
    {
        let handed = self.core.next_chapter();
        // States that the next chapter is legal.
        let _ = self.core.chapter();
        handed
    }

    /// Returns the current chapter and begins the next, if the chapter has at least this many entries. `None` if it has
    /// fewer; nothing changes then.
    pub fn grown_chapter(&mut self, least: u32) -> Result<Option<Chapter<A>>, ChapterFault>
        ensures few { (result ≡ Ok None) ↔ (length self.old.world.history.entries < least) }
        ensures book_spent { (result ≡ Err ChapterFault.BookSpent) ↔
            ((least ≤ length self.old.world.history.entries) × (self.old.world.number + 1 ≡ self.old.world.limits.chapters)) }
        ensures ok { IfOk result (λ found. HandsOutGrown self.old found self.new) }
        ensures err { OnErr result (self.new ≡ self.old) }
    {
        if self.core.chapter().entries.len() < least as usize {
            return Ok(None);
        }
        match self.next_chapter() {
            Ok(chapter) => Ok(Some(chapter)),
            Err(fault) => Err(fault),
        }
    }
}

impl<N: OfficeName<A>, A: Allocator + Copy> Hall<N, A> {
    /// Returns the current chapter and begins the next, whose opening is the current state. Rings and mailboxes stay.
    ///
    /// Refused in this order: this is the last of the chapters, out of memory.
    pub fn next_chapter(&mut self) -> Result<Chapter<A>, ChapterFault>
        requires { 0 ≤ self.old.state.total }
        ensures book_spent { (result ≡ Err ChapterFault.BookSpent) ↔ (self.old.state.world.number + 1 ≡ self.old.state.world.limits.chapters) }
        ensures history { IfOk result (λ chapter. history_of chapter ≡ self.old.state.world.history) }
        ensures number { IfOk result (λ chapter. chapter.number ≡ self.old.state.world.number) }
        ensures legal { OnOk result (IsLegal self.old.state.world.floor self.old.state.world.history) }
        ensures planned { OnOk result (EachTick (IsPlannedAs self.old.state.world.turns self.old.state.world.floor self.old.state.world.ties) self.old.state.world.history) }
        ensures advancing { OnOk result (self.old.state.world.turns ≡ None → AdvancesIfRoomy self.old.state.world.floor self.old.state.world.history) }
        ensures bounded { OnOk result (self.old.state.world.turns ≡ None → HasBound self.old.state.world.floor self.old.state.world.history → WaitsAreBounded self.old.state.world.floor self.old.state.world.history) }
        ensures served { OnOk result (ServesInTurns self.old.state.world.turns self.old.state.world.floor self.old.state.world.history) }
        ensures next { OnOk result (self.new.state ≡ next_hall self.old.state) }
        ensures err { OnErr result (self.new.state ≡ self.old.state) }
    {
        self.state.next_chapter()
    }

    /// Returns the current chapter and begins the next, if the chapter has at least this many entries. `None` if it has
    /// fewer; nothing changes then.
    ///
    /// If it has that many, refused as `next_chapter` is.
    pub fn grown_chapter(&mut self, least: u32) -> Result<Option<Chapter<A>>, ChapterFault>
        requires { 0 ≤ self.old.state.total }
        ensures few { (result ≡ Ok None) ↔ (length self.old.state.world.history.entries < least) }
        ensures book_spent { (result ≡ Err ChapterFault.BookSpent) ↔
            ((least ≤ length self.old.state.world.history.entries) × (self.old.state.world.number + 1 ≡ self.old.state.world.limits.chapters)) }
        ensures ok { IfOk result (λ found. HandsOutGrown self.old.state found self.new.state) }
        ensures err { OnErr result (self.new.state ≡ self.old.state) }
    {
        self.state.grown_chapter(least)
    }
}

impl<N: OfficeName<A>, A: Allocator + Copy> Office<N, A> {
    /// Returns the current chapter and begins the next, as `next_chapter` does, if the chapter has at least this many
    /// entries. `None` if it has fewer; nothing changes then. So of several tickers that find a chapter full only one
    /// begins the next.
    ///
    /// If it has that many, refused as `next_chapter` is; a refused call changes nothing.
    pub fn grown_chapter<R: Wait>(
        &self,
        rt: &R,
        least: u32,
    ) -> Result<Option<Chapter<A>>, ChapterFault>
        requires { least < 2 ^ 32 }
        ensures few { (result ≡ Ok None) → (h : HallView A) × IsLawful N.rings N.start h.world h.ends h.total × (length h.world.history.entries < least) }
        ensures enough { IfOk result (λ found. IfSome found (λ chapter. least ≤ length (history_of chapter).entries)) }
        ensures handed { IfOk result (λ found. IfSome found (λ chapter.
            (h : HallView A) × IsChapterOf N.rings N.start h chapter.number (history_of chapter))) }
        ensures spent { (result ≡ Err ChapterFault.BookSpent) → (h : HallView A) × IsLawful N.rings N.start h.world h.ends h.total
            × (least ≤ length h.world.history.entries) × (h.world.number + 1 ≡ h.world.limits.chapters) }
    {
        let mut held = self.hall.lock(rt);
        let hall = &mut *held;
        hall.state.recall_laws();
        hall.grown_chapter(least)
    }
}
