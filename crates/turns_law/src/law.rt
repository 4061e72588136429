//! Laws of fleets whose ticks are planned in turns, for the crates above and for readers. The functions do nothing.

ghost use Rattle.std.specs.Prelude.{◌≡◌, ◌≢◌, ℕ, ◌*◌, ◌<◌, ◌≤◌, List, Some, slice_index};
ghost use Rattle.fleet_grid.specs.Floor.{Floor};
ghost use Rattle.fleet_hooks.specs.declared.law.TieLaw.{TieLaw};
ghost use Rattle.fleet_pibt.specs.Eldest.{IsEldestOf};
ghost use Rattle.fleet_planner.specs.Lending.{goal_at};
ghost use Rattle.turns_law.specs.Turns.{Turns, AreTurns};
ghost use Rattle.turns_law.specs.ToGo.{AreLimits, IsToGo};
ghost use Rattle.turns_law.specs.Fleet.{Fleet, IsFleet, IsTick, IsPause, served_wait, KeepsTurns, Follows};

/// In each tick the first robot with a served goal, which has the turn, arrives, or needs fewer ticks from then on: it comes nearer
/// itself, or a robot leaves the room of its goal. What it needs is at most one turn.
pub fn turns_come_nearer()
    ensures some { (m : Floor) (t : Turns) (reach : ℕ) (depth : ℕ → ℕ) (turn : ℕ) (f : Fleet) (e g : ℕ) → AreTurns m t → AreLimits m t reach depth turn →
        IsFleet m t.robots f → e < t.robots → goal_at f.goals e ≡ Some g →
        (ticks : ℕ) × IsToGo m t reach depth f.cells e g ticks × (0 < ticks) × (ticks ≤ turn) }
    ensures nearer { (m : Floor) (t : Turns) (reach : ℕ) (depth : ℕ → ℕ) (turn : ℕ) (laws : List TieLaw) (old new : Fleet) (e g ticks : ℕ) →
        AreTurns m t → AreLimits m t reach depth turn → IsFleet m t.robots old → IsTick m t laws old new →
        IsEldestOf (served_wait t old) t.robots e → goal_at old.goals e ≡ Some g → slice_index new.cells e ≢ g →
        IsToGo m t reach depth old.cells e g ticks → (fewer : ℕ) × IsToGo m t reach depth new.cells e g fewer × (fewer < ticks) }
{}

/// Ticks and what happens between them keep the bound. It holds where no robot with a served goal has waited yet.
pub fn turns_keep_bound()
    ensures tick { (m : Floor) (t : Turns) (reach : ℕ) (depth : ℕ → ℕ) (turn : ℕ) (laws : List TieLaw) (old new : Fleet) →
        AreTurns m t → AreLimits m t reach depth turn → IsFleet m t.robots old → IsFleet m t.robots new →
        IsTick m t laws old new → KeepsTurns m t reach depth turn old → KeepsTurns m t reach depth turn new }
    ensures pause { (m : Floor) (t : Turns) (reach : ℕ) (depth : ℕ → ℕ) (turn : ℕ) (old new : Fleet) →
        AreTurns m t → AreLimits m t reach depth turn → IsFleet m t.robots old → IsFleet m t.robots new →
        IsPause t.robots old new → KeepsTurns m t reach depth turn old → KeepsTurns m t reach depth turn new }
    ensures begins { (m : Floor) (t : Turns) (reach : ℕ) (depth : ℕ → ℕ) (turn : ℕ) (f : Fleet) →
        AreTurns m t → AreLimits m t reach depth turn → IsFleet m t.robots f →
        ((r w : ℕ) → r < t.robots → served_wait t f r ≡ Some w → w ≡ 0) → KeepsTurns m t reach depth turn f }
{}

/// While the bound is kept, each wait for a served goal is below robots times turn.
pub fn waits_are_bounded()
    ensures { (m : Floor) (t : Turns) (reach : ℕ) (depth : ℕ → ℕ) (turn : ℕ) (f : Fleet) (r w : ℕ) →
        AreTurns m t → AreLimits m t reach depth turn → IsFleet m t.robots f → KeepsTurns m t reach depth turn f →
        r < t.robots → served_wait t f r ≡ Some w → w < t.robots * turn }
{}

/// Whatever the waits were, a robot with a served goal arrives within robots times turn ticks: a run of ticks in which it does not is
/// shorter.
pub fn errands_arrive()
    ensures { (m : Floor) (t : Turns) (reach : ℕ) (depth : ℕ → ℕ) (turn : ℕ) (laws : List TieLaw) (r : ℕ) (from now : Fleet) (ticks : ℕ) →
        AreTurns m t → AreLimits m t reach depth turn → r < t.robots → Follows m t laws r from now ticks → ticks < t.robots * turn }
{}
