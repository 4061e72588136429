//! Laws of worlds that go on, and of chapters that follow one another. The functions do nothing.

ghost use Rattle.std.specs.Prelude.{◌≡◌, ◌<◌, ◌*◌, ℕ, List, Some, None, length, true};
ghost use Rattle.fleet_bound.specs.Bound.{KeepsBound};
ghost use Rattle.fleet_bound.specs.Roomy.{AdvancesIfRoomy, AreRoomy};
ghost use Rattle.fleet_grid.specs.Floor.{Floor};
ghost use Rattle.fleet_history.specs.declared.history.Opening.{Opening};
ghost use Rattle.fleet_history.specs.History.{History, start, robots, clients, client_at, is_closed, unknown_client};
ghost use Rattle.fleet_history.specs.Laws.{EachTick, HasNoConflict};
ghost use Rattle.fleet_history.specs.Legal.{IsLegal};
ghost use Rattle.fleet_history.specs.Next.{next_opening};
ghost use Rattle.fleet_history.specs.Rings.{KeepsRing};
ghost use Rattle.fleet_planner.specs.Planned.{IsAdvancingTick};
ghost use Rattle.turns_law.specs.Turns.{Turns};
ghost use Rattle.turns_history.specs.Fleets.{TurnLimits, AreTurnsFor};
ghost use Rattle.turns_history.specs.Kept.{AreServedBelow, KeepsTurnsAfter};
ghost use Rattle.fleet_core.specs.Core.{World, ServesInTurns, next_world};
ghost use Rattle.fleet_core.specs.Hooks.{HookLaws};
ghost use Rattle.fleet_reopen.specs.Reopening.{reopened_world, with_empty_boxes};
ghost use Rattle.fleet_reopen.specs.Chapters.{AreChapters, all_orders, all_notices};

/// A world that goes on from the chapter of another, whose robots take no turns, is the other in its next chapter, but for
/// the notices that were not given.
pub fn reopened_is_next<A>()
    ensures { (w : World A) (laws : HookLaws) → laws.ties ≡ w.ties → w.turns ≡ None →
        reopened_world w.floor w.number w.history w.limits laws ≡ with_empty_boxes (next_world w) }
{}

/// Over chapters that follow one another, whichever worlds made them, no step has a conflict; each notice of a client
/// that the first chapter does not know was made once, and the notices, the orders and the errands are numbered
/// through; who is closed stays closed; and where each tick advances, as each does if all errands go to roomy cells, the
/// bound on waits is kept. So is that on waits for served errands, where the robots take the same turns in all chapters.
pub fn chapters_are_one_run<A>()
    ensures conflicts { (m : Floor) (o : Opening A) (before : List (History A)) (h : History A) →
        AreChapters m (IsLegal m) o before h → HasNoConflict m h }
    ensures rings { (m : Floor) (o : Opening A) (before : List (History A)) (h : History A) (c : ℕ) →
        c < length o.clients → client_at (start o) c ≡ unknown_client → AreChapters m (IsLegal m) o before h →
        KeepsRing h c (all_orders before h c) (all_notices before h c) }
    ensures closed { (m : Floor) (o : Opening A) (before : List (History A)) (h g : History A) (c : ℕ) →
        AreChapters m (IsLegal m) o before h → g.opening ≡ next_opening h → c < clients h → is_closed h c ≡ true →
        is_closed (start g.opening) c ≡ true }
    ensures bounded { (m : Floor) (o : Opening A) (before : List (History A)) (h : History A) →
        AreChapters m (EachTick (IsAdvancingTick m)) o before h → KeepsBound m (start o) → KeepsBound m h }
    ensures roomy { (m : Floor) (o : Opening A) (before : List (History A)) (h : History A) →
        AreChapters m (λ k. AreRoomy m k × AdvancesIfRoomy m k) o before h → KeepsBound m (start o) → KeepsBound m h }
    ensures served { (m : Floor) (t : Turns) (l : TurnLimits) (o : Opening A) (before : List (History A)) (h : History A) →
        AreChapters m (ServesInTurns (Some t) m) o before h → AreTurnsFor m t l (robots (start o)) → KeepsTurnsAfter m t l (start o) →
        KeepsTurnsAfter m t l h × AreServedBelow t (robots h * l.turn) h }
{}
