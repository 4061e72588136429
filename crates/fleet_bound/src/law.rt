//! Laws of waits in legal histories whose ticks are advancing, for the crates above and for readers. The functions do
//! nothing.

ghost use Rattle.std.specs.Prelude.{◌≡◌, ℕ, ◌-◌, ◌<◌, ◌≤◌, List, [], Option, Some, max};
ghost use Rattle.fleet_book.specs.declared.order.Order.{Order};
ghost use Rattle.fleet_book.specs.declared.verdict.Verdict.{Verdict};
ghost use Rattle.fleet_grid.specs.Floor.{Floor, IsNeighbour};
ghost use Rattle.fleet_grid.specs.Counts.{floor_count};
ghost use Rattle.fleet_grid.specs.Walk.{IsBridgeless};
ghost use Rattle.fleet_hooks.specs.declared.law.TieLaw.{TieLaw};
ghost use Rattle.fleet_history.specs.declared.history.Arrival.{Arrival};
ghost use Rattle.fleet_history.specs.declared.history.Bye.{Bye};
ghost use Rattle.fleet_history.specs.declared.history.Entry.{Entry};
ghost use Rattle.fleet_history.specs.declared.history.Entry.TheVariants.{Take, Tick, Shut};
ghost use Rattle.fleet_history.specs.declared.history.Opening.{Opening};
ghost use Rattle.fleet_history.specs.History.{History, start, after, robots, errands_at};
ghost use Rattle.fleet_history.specs.Laws.{EachTick};
ghost use Rattle.fleet_history.specs.Legal.{IsLegal, IsInOrder, Fits};
ghost use Rattle.fleet_history.specs.Next.{next_opening};
ghost use Rattle.fleet_history.specs.Waits.{wait};
ghost use Rattle.fleet_planner.specs.Planned.{IsPlanned, IsAdvancingTick};
ghost use Rattle.fleet_bound.specs.Arriving.{ErrandsArrive, IsIdleWithin};
ghost use Rattle.fleet_bound.specs.Bound.{KeepsBound, WaitsAreBounded};
ghost use Rattle.fleet_bound.specs.Idle.{idle_ticks, longest_after};
ghost use Rattle.fleet_bound.specs.Onward.{onward, GoesOn};
ghost use Rattle.fleet_bound.specs.Reach.{IsReach, reach};
ghost use Rattle.fleet_bound.specs.Roomy.{AreRoomy, AreOpenRoomy, AreNewRoomy, EldestIsRoomy, HasBound, IsIdleByPlan};

/// The reach of a map is 1, or the greatest distance of two of its cells. It is below the number of floor cells, where
/// there are two or more.
pub fn reach_is_greatest()
    ensures is { (m : Floor) → IsReach m (reach m) }
    ensures few { (m : Floor) → reach m ≤ max 1 (floor_count m - 1) }
{}

/// An opening keeps the bound if no robot has waited yet, for example if no robot has errands.
pub fn openings_keep_bound<A>()
    ensures unwaited { (m : Floor) (o : Opening A) → IsInOrder m o →
        ((r w : ℕ) → r < robots (start o) → wait (start o) r ≡ Some w → w ≡ 0) → KeepsBound m (start o) }
    ensures empty { (m : Floor) (o : Opening A) → IsInOrder m o →
        ((r : ℕ) → r < robots (start o) → errands_at o r ≡ []) → KeepsBound m (start o) }
{}

/// Each legal entry keeps the bound if it is an advancing tick or no tick at all. So does the next chapter's opening.
pub fn entries_keep_bound<A>()
    ensures take { (m : Floor) (h : History A) (client : ℕ) (order : Order) (verdict : Verdict) → IsLegal m h →
        Fits m h (Take client order verdict) → KeepsBound m h → KeepsBound m (after h (Take client order verdict)) }
    ensures tick { (m : Floor) (h : History A) (to : List ℕ) (arrived : List Arrival) (farewells : List Bye) → IsLegal m h →
        Fits m h (Tick to arrived farewells) → IsAdvancingTick m h to → KeepsBound m h →
        KeepsBound m (after h (Tick to arrived farewells)) }
    ensures shut { (m : Floor) (h : History A) (robot : ℕ) (farewell : Option ℕ) → IsLegal m h →
        Fits m h (Shut robot farewell) → KeepsBound m h → KeepsBound m (after h (Shut robot farewell)) }
    ensures next { (m : Floor) (h : History A) → IsLegal m h → KeepsBound m h → KeepsBound m (start (next_opening h)) }
{}

/// Each wait of a legal history is below the bound, where each of its ticks is advancing and the waits at its opening
/// leave room for the bound (`KeepsBound`). Its own waits leave that room too, and so do those of each history that
/// goes on from it.
pub fn waits_are_bounded<A>()
    ensures bounded { (m : Floor) (h : History A) → IsLegal m h → EachTick (IsAdvancingTick m) h →
        KeepsBound m (start h.opening) → WaitsAreBounded m h }
    ensures kept { (m : Floor) (h : History A) → IsLegal m h → EachTick (IsAdvancingTick m) h →
        KeepsBound m (start h.opening) → KeepsBound m h }
    ensures onward { (m : Floor) (h : History A) (more : List (Entry A)) → GoesOn m h more →
        KeepsBound m h → KeepsBound m (onward h more) }
    ensures below { (m : Floor) (h : History A) → IsLegal m h → KeepsBound m h → WaitsAreBounded m h }
{}

/// Each errand arrives, or is withdrawn, within the bound's ticks times its place in the queue, counted from 1,
/// whatever the waits were.
pub fn errands_arrive<A>()
    ensures { (m : Floor) (h : History A) → ErrandsArrive m h }
{}

/// A fleet without new orders is idle after the number of ticks that `idle_within` returns.
pub fn fleet_gets_idle<A>()
    ensures { (m : Floor) (h : History A) → IsIdleWithin m h (idle_ticks (longest_after h) (robots h) (floor_count m)) }
{}

/// A planned tick is advancing on every map, with bridges or without, if the front errand of the eldest robot goes to a
/// cell that is roomy for all robots: each side of each bridge that has the cell has as many cells as there are robots.
/// So each tick of a history is advancing if all its errands go to such cells, and it goes on by advancing ticks while
/// all new ones do. With that the other laws of this file hold of it.
///
/// On a map without bridges every cell is roomy, so what worlds promise of roomy histories they promise of all there. The
/// next chapter begins with errands of this one, so it begins roomy.
pub fn roomy_ticks_advance<A>()
    ensures tick { (m : Floor) (ties : List TieLaw) (h : History A) (to : List ℕ) → IsLegal m h →
        IsPlanned m ties h to → EldestIsRoomy m h → IsAdvancingTick m h to }
    ensures eldest { (m : Floor) (h : History A) → AreRoomy m h → EldestIsRoomy m h }
    ensures all { (m : Floor) (ties : List TieLaw) (h : History A) → IsLegal m h →
        EachTick (IsPlanned m ties) h → AreRoomy m h → EachTick (IsAdvancingTick m) h }
    ensures onward { (m : Floor) (ties : List TieLaw) (h : History A) (more : List (Entry A)) → IsLegal m (onward h more) →
        EachTick (IsPlanned m ties) (onward h more) → AreRoomy m (onward h more) → GoesOn m h more }
    ensures bridgeless { (m : Floor) (h : History A) → IsBridgeless (IsNeighbour m) → AreRoomy m h }
    ensures bound { (m : Floor) (h : History A) → IsBridgeless (IsNeighbour m) → HasBound m h }
    ensures next { (m : Floor) (h : History A) → AreRoomy m h → AreRoomy m (start (next_opening h)) }
{}

/// A history goes on by advancing ticks on every map, whatever was done before, if each unfinished errand goes to a roomy
/// cell and each that is accepted from then on. So each errand arrives within its bound (`errands_arrive`), and a fleet
/// without new orders is idle after the same number of ticks as on a map without bridges.
pub fn open_errands_advance<A>()
    ensures onward { (m : Floor) (ties : List TieLaw) (h : History A) (more : List (Entry A)) → IsLegal m (onward h more) →
        EachTick (IsPlanned m ties) (onward h more) → AreOpenRoomy m h → AreNewRoomy m (robots h) more → GoesOn m h more }
    ensures idle { (m : Floor) (ties : List TieLaw) (h : History A) → AreOpenRoomy m h →
        IsIdleByPlan m ties h (idle_ticks (longest_after h) (robots h) (floor_count m)) }
{}

/// A history is roomy if the errands of its opening go to roomy cells, and all that are accepted do. Then those that are
/// unfinished do. A roomy history whose opening has no errands has the bound on waits.
pub fn entries_keep_roomy<A>()
    ensures opening { (m : Floor) (o : Opening A) → AreOpenRoomy m (start o) → AreRoomy m (start o) }
    ensures onward { (m : Floor) (h : History A) (more : List (Entry A)) → AreRoomy m h → AreNewRoomy m (robots h) more →
        AreRoomy m (onward h more) }
    ensures unfinished { (m : Floor) (h : History A) → AreRoomy m h → AreOpenRoomy m h }
    ensures fresh { (m : Floor) (h : History A) → IsInOrder m h.opening →
        ((r : ℕ) → r < robots h → errands_at h.opening r ≡ []) → AreRoomy m h → HasBound m h }
{}
