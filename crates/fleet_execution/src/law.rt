//! What holds of each execution. The function does nothing.

ghost use Rattle.std.specs.Prelude.{◌≡◌, ◌≢◌, ℕ, ◌-◌, ◌<◌, ◌≤◌};
ghost use Rattle.execution_law.specs.declared.clearance.Clearance.TheVariants.{Arrived};
ghost use Rattle.execution_law.specs.Run.{Moves, Leaves, Turns};
ghost use Rattle.execution_law.specs.Rule.{HasEnded, MayBegin, IsLawful};
ghost use Rattle.fleet_execution.specs.Course.{Course};
ghost use Rattle.fleet_execution.specs.Executes.{Executes};
ghost use Rattle.fleet_execution.specs.Kept.{Kept, desk};

/// Whatever was planned, begun and reported: cells are visited in the order of the plan; the cells for which robots are
/// bound are distinct, and under `Arrived` nobody else is bound for a cell that a robot is leaving, unless that robot
/// turns in a cycle; no two robots are under way between the same two cells in opposite directions; and while a planned
/// move has not begun, some robot is under way or some move may begin.
pub fn executions_keep_the_rule()
    ensures lawful { (e : Kept) (o : Course) → Executes (desk e) o → IsLawful o.run }
    ensures order { (e : Kept) (o : Course) → Executes (desk e) o → (r t q u : ℕ) → r < o.run.plan.robots → t ≤ o.run.begun r → Moves o.run.plan r t →
        q < o.run.plan.robots → u ≤ t → Leaves o.run.plan q u (o.run.plan.cell t r) → HasEnded o.run q u }
    ensures exclusion { (e : Kept) (o : Course) → Executes (desk e) o → (r q : ℕ) → r < o.run.plan.robots → q < o.run.plan.robots →
        o.run.plan.cell (o.run.begun r) r ≡ o.run.plan.cell (o.run.begun q) q → r ≡ q }
    ensures left { (e : Kept) (o : Course) → Executes (desk e) o → o.run.clearance ≡ Arrived → (r q : ℕ) → r < o.run.plan.robots → q < o.run.plan.robots →
        o.run.reached r < o.run.begun r → (Turns o.run.plan (o.run.begun r) r → ⊥) →
        o.run.plan.cell (o.run.begun q) q ≡ o.run.plan.cell (o.run.begun r - 1) r → r ≡ q }
    ensures no_swap { (e : Kept) (o : Course) → Executes (desk e) o → (r q : ℕ) → r < o.run.plan.robots → q < o.run.plan.robots →
        0 < o.run.begun r → 0 < o.run.begun q → o.run.plan.cell (o.run.begun r) r ≡ o.run.plan.cell (o.run.begun q - 1) q →
        o.run.plan.cell (o.run.begun q) q ≡ o.run.plan.cell (o.run.begun r - 1) r → r ≡ q }
    ensures progress { (e : Kept) (o : Course) → Executes (desk e) o →
        ((q : ℕ) → q < o.run.plan.robots → o.run.begun q ≡ o.run.reached q) →
        ((r s : ℕ) → r < o.run.plan.robots → MayBegin o.run r s → ⊥) →
        (r t : ℕ) → r < o.run.plan.robots → t ≤ o.run.plan.steps → Moves o.run.plan r t → t ≤ o.run.begun r }
{}
