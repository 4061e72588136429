//! Laws of histories whose ticks are planned in turns, for the crates above and for readers. The functions do nothing.

ghost use Rattle.std.specs.Prelude.{◌≡◌, ℕ, ◌+◌, ◌*◌, ◌<◌, ◌≤◌, ◌++◌, List, Option, Some};
ghost use Rattle.fleet_book.specs.declared.order.Order.{Order};
ghost use Rattle.fleet_book.specs.declared.verdict.Verdict.{Verdict};
ghost use Rattle.fleet_grid.specs.Floor.{Floor};
ghost use Rattle.fleet_hooks.specs.declared.law.TieLaw.{TieLaw};
ghost use Rattle.fleet_history.specs.declared.history.Arrival.{Arrival};
ghost use Rattle.fleet_history.specs.declared.history.Bye.{Bye};
ghost use Rattle.fleet_history.specs.declared.history.Entry.{Entry};
ghost use Rattle.fleet_history.specs.declared.history.Entry.TheVariants.{Take, Tick, Shut};
ghost use Rattle.fleet_history.specs.declared.history.Opening.{Opening};
ghost use Rattle.fleet_history.specs.History.{History, start, after, with_entries, robots};
ghost use Rattle.fleet_history.specs.Legal.{IsLegal, IsInOrder, Fits};
ghost use Rattle.fleet_history.specs.Next.{next_opening};
ghost use Rattle.fleet_history.specs.Waits.{wait};
ghost use Rattle.fleet_bound.specs.Reach.{reach};
ghost use Rattle.turns_law.specs.Turns.{Turns, AreTurns};
ghost use Rattle.turns_law.specs.Fleet.{IsFleet, IsTick, IsPause};
ghost use Rattle.turns_history.specs.Fleets.{TurnLimits, AreTurnsFor, IsEarly, IsEntryInTurns, IsPlannedInTurns, as_fleet, limits_by};
ghost use Rattle.turns_history.specs.Kept.{AreChaptersInTurns, AreServedBelow, IsLegalInTurns, KeepsTurnsAfter};
ghost use Rattle.turns_history.specs.Arriving.{FrontsArrive, QueuesArrive};

/// A legal history is a fleet as the laws of `turns_law` have it: each robot waits exactly while it has a front errand, to which a walk
/// leads. A tick that is planned in turns is a tick of that fleet. A take is a pause: who has a front errand keeps it, since a withdrawal
/// never takes the front. A shut and the next chapter's opening leave the fleet as it is.
pub fn histories_are_fleets<A>()
    ensures fleet { (m : Floor) (h : History A) → IsLegal m h → IsEarly h → IsFleet m (robots h) (as_fleet h) }
    ensures tick { (m : Floor) (t : Turns) (laws : List TieLaw) (h : History A) (to : List ℕ) (arrived : List Arrival) (farewells : List Bye) →
        IsLegal m h → Fits m h (Tick to arrived farewells) → IsPlannedInTurns m t laws h to →
        IsTick m t laws (as_fleet h) (as_fleet (after h (Tick to arrived farewells))) }
    ensures take { (m : Floor) (h : History A) (client : ℕ) (order : Order) (verdict : Verdict) → IsLegal m h →
        Fits m h (Take client order verdict) → IsPause (robots h) (as_fleet h) (as_fleet (after h (Take client order verdict))) }
    ensures shut { (m : Floor) (h : History A) (robot : ℕ) (farewell : Option ℕ) → IsLegal m h →
        Fits m h (Shut robot farewell) → as_fleet (after h (Shut robot farewell)) ≡ as_fleet h }
    ensures next { (m : Floor) (h : History A) → IsLegal m h → as_fleet (start (next_opening h)) ≡ as_fleet h }
{}

/// Limits that hold without a look at the rooms: where no two cells are further apart than `span`, one turn of n robots takes at most n
/// times `span` ticks. No two cells are further apart than the floor cells but one (`fleet_bound::law::reach_is_greatest`).
pub fn limits_by_span()
    ensures { (m : Floor) (t : Turns) (span n : ℕ) → AreTurns m t → t.robots ≡ n → 1 ≤ n → reach m ≤ span → AreTurnsFor m t (limits_by span n) n }
{}

/// The bound is kept by each entry that fits, if it is a tick that is planned in turns or no tick at all, and by the next chapter's
/// opening. It holds at an opening of which no robot has waited yet.
pub fn entries_keep_turns<A>()
    ensures begins { (m : Floor) (t : Turns) (l : TurnLimits) (o : Opening A) → AreTurnsFor m t l (robots (start o)) → IsInOrder m o →
        IsEarly (start o) → ((r w : ℕ) → r < robots (start o) → wait (start o) r ≡ Some w → w ≡ 0) → KeepsTurnsAfter m t l (start o) }
    ensures entry { (m : Floor) (t : Turns) (l : TurnLimits) (laws : List TieLaw) (h : History A) (e : Entry A) → AreTurnsFor m t l (robots h) →
        IsLegal m h → Fits m h e → IsEarly (after h e) → IsEntryInTurns m t laws h e → KeepsTurnsAfter m t l h → KeepsTurnsAfter m t l (after h e) }
    ensures next { (m : Floor) (t : Turns) (l : TurnLimits) (h : History A) → IsLegal m h →
        KeepsTurnsAfter m t l h → KeepsTurnsAfter m t l (start (next_opening h)) }
{}

/// A history whose ticks are planned in turns keeps the bound of its opening, and so does a chain of chapters. At each moment of it each
/// robot whose front errand is served has waited for less than robots times one turn.
pub fn served_waits_are_bounded<A>()
    ensures kept { (m : Floor) (t : Turns) (l : TurnLimits) (laws : List TieLaw) (h : History A) → AreTurnsFor m t l (robots h) →
        IsLegalInTurns m t laws h → KeepsTurnsAfter m t l (start h.opening) → KeepsTurnsAfter m t l h }
    ensures bounded { (m : Floor) (t : Turns) (l : TurnLimits) (laws : List TieLaw) (h : History A) (before behind : List (Entry A)) →
        AreTurnsFor m t l (robots h) → IsLegalInTurns m t laws h → KeepsTurnsAfter m t l (start h.opening) →
        h.entries ≡ before ++ behind → AreServedBelow t (robots h * l.turn) (with_entries h before) }
    ensures chapters { (m : Floor) (t : Turns) (l : TurnLimits) (laws : List TieLaw) (chapters : ℕ → History A) (last : ℕ) →
        AreTurnsFor m t l (robots (chapters 0)) → AreChaptersInTurns m t laws chapters last →
        KeepsTurnsAfter m t l (start (chapters 0).opening) → KeepsTurnsAfter m t l (chapters last) }
{}

/// Whatever the waits were, the front errand of a robot arrives, if it is served, while a history goes on by robots times one turn ticks
/// that are planned in turns. An errand after it arrives, or is withdrawn, within as many ticks for each place in the queue up to its own,
/// if it and all before it are served.
pub fn served_errands_arrive<A>()
    ensures fronts { (m : Floor) (t : Turns) (l : TurnLimits) (laws : List TieLaw) (h : History A) → AreTurnsFor m t l (robots h) →
        FrontsArrive m t laws (robots h * l.turn) h }
    ensures queues { (m : Floor) (t : Turns) (l : TurnLimits) (laws : List TieLaw) (h : History A) → AreTurnsFor m t l (robots h) →
        QueuesArrive m t laws (robots h * l.turn) h }
{}
