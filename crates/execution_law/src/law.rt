//! What keeps a run lawful, and what holds of each lawful run. The functions do nothing.

ghost use Rattle.std.specs.Prelude.{◌≡◌, ℕ, ◌-◌, ◌<◌, ◌≤◌};
ghost use Rattle.execution_law.specs.declared.clearance.Clearance.{Clearance};
ghost use Rattle.execution_law.specs.declared.clearance.Clearance.TheVariants.{Arrived, Started};
ghost use Rattle.execution_law.specs.Run.{Plan, Run, IsConflictFree, Moves, Leaves, Turns};
ghost use Rattle.execution_law.specs.Rule.{HasEnded, MayBegin, IsLawful};
ghost use Rattle.execution_law.specs.Change.{opened, Extends, Begins, BeginsWith, Reports};

/// A run is lawful in whatever order plans, beginnings and reports follow one another: at its opening, after further
/// steps of the plan, after a beginning that the rule allows, and after the report of a robot that is under way.
pub fn runs_stay_lawful()
    ensures opened { (clearance : Clearance) (plan : Plan) → IsConflictFree plan → IsLawful (opened clearance plan) }
    ensures planned { (run : Run) (steps : ℕ) (cell : ℕ → ℕ → ℕ) → IsLawful run → Extends run.plan steps cell →
        IsConflictFree (record run.plan { steps = steps; cell = cell }) →
        IsLawful (record run { plan = record run.plan { steps = steps; cell = cell } }) }
    ensures begun { (run : Run) (r t : ℕ) (begun : ℕ → ℕ) → IsLawful run → Begins run r t begun → IsLawful (record run { begun = begun }) }
    ensures reported { (run : Run) (r : ℕ) (reached : ℕ → ℕ) → IsLawful run → Reports run r reached → IsLawful (record run { reached = reached }) }
{}

/// Each cell is visited in the order of the plan: a robot has begun its move to a cell only after each stay that the plan
/// has on that cell before has ended. It is enough to ask for the last of them: if that has ended, so have all before it.
pub fn robots_keep_the_order()
    ensures order { (run : Run) → IsLawful run → (r t q e : ℕ) → r < run.plan.robots → t ≤ run.begun r → Moves run.plan r t →
        q < run.plan.robots → e ≤ t → Leaves run.plan q e (run.plan.cell t r) → HasEnded run q e }
    ensures last { (run : Run) → IsLawful run → (p last cell : ℕ) → p < run.plan.robots → Leaves run.plan p last cell → HasEnded run p last →
        (q e : ℕ) → q < run.plan.robots → e ≤ last → Leaves run.plan q e cell → HasEnded run q e }
{}

/// The cells for which robots are bound are distinct, so they are always a placement: a robot is bound for the cell of
/// its last move that has begun. Under `Arrived` nobody else is bound for a cell that a robot is leaving either, unless
/// that robot turns in a cycle. And no two robots are under way between the same two cells in opposite directions.
pub fn robots_stay_apart()
    ensures exclusion { (run : Run) → IsLawful run → (r q : ℕ) → r < run.plan.robots → q < run.plan.robots →
        run.plan.cell (run.begun r) r ≡ run.plan.cell (run.begun q) q → r ≡ q }
    ensures left { (run : Run) → IsLawful run → run.clearance ≡ Arrived → (r q : ℕ) → r < run.plan.robots → q < run.plan.robots →
        run.reached r < run.begun r → (Turns run.plan (run.begun r) r → ⊥) →
        run.plan.cell (run.begun q) q ≡ run.plan.cell (run.begun r - 1) r → r ≡ q }
    ensures no_swap { (run : Run) → IsLawful run → (r q : ℕ) → r < run.plan.robots → q < run.plan.robots →
        0 < run.begun r → 0 < run.begun q → run.plan.cell (run.begun r) r ≡ run.plan.cell (run.begun q - 1) q →
        run.plan.cell (run.begun q) q ≡ run.plan.cell (run.begun r - 1) r → r ≡ q }
{}

/// If no robot is under way and no move may begin, each planned move has begun: no deadlock. And robots that are in step
/// stay in step under `Started`: if each move before the last step has begun, and each robot that has not begun its move
/// of the last step has reached its cell, then as long as a move of that step has not begun, some move may begin.
pub fn robots_go_on()
    ensures progress { (run : Run) → IsLawful run →
        ((q : ℕ) → q < run.plan.robots → run.begun q ≡ run.reached q) →
        ((r s : ℕ) → r < run.plan.robots → MayBegin run r s → ⊥) →
        (r t : ℕ) → r < run.plan.robots → t ≤ run.plan.steps → Moves run.plan r t → t ≤ run.begun r }
    ensures in_step { (run : Run) → IsLawful run → run.clearance ≡ Started →
        ((q s : ℕ) → q < run.plan.robots → s < run.plan.steps → Moves run.plan q s → s ≤ run.begun q) →
        ((q : ℕ) → q < run.plan.robots → run.begun q < run.plan.steps → run.begun q ≡ run.reached q) →
        ((r s : ℕ) → r < run.plan.robots → MayBegin run r s → ⊥) →
        (r : ℕ) → r < run.plan.robots → Moves run.plan r run.plan.steps → run.plan.steps ≤ run.begun r }
{}

/// A move that may begin may begin until it has begun, whatever other moves begin, whoever reports, and however the plan
/// goes on. So a queue of such moves stays right.
pub fn moves_stay_ready()
    ensures begun { (run : Run) (r t : ℕ) (begun : ℕ → ℕ) → IsLawful run → Begins run r t begun →
        (s u : ℕ) → s < run.plan.robots → MayBegin run s u → (BeginsWith run.plan t r s → ⊥) → MayBegin (record run { begun = begun }) s u }
    ensures reported { (run : Run) (r : ℕ) (reached : ℕ → ℕ) → Reports run r reached →
        (s u : ℕ) → s < run.plan.robots → MayBegin run s u → MayBegin (record run { reached = reached }) s u }
    ensures planned { (run : Run) (steps : ℕ) (cell : ℕ → ℕ → ℕ) → IsLawful run → Extends run.plan steps cell →
        (s u : ℕ) → s < run.plan.robots → MayBegin run s u →
        MayBegin (record run { plan = record run.plan { steps = steps; cell = cell } }) s u }
{}
