//! Laws of traces that are written as plans. The functions do nothing: their contracts are the laws.

ghost use Rattle.std.specs.Prelude.{◌≡◌, ◌≤◌, ◌∷◌, ℕ, List, length, Some, None};
ghost use Rattle.std.specs.declared.alloc.Global.{Global};
ghost use Rattle.fleet_grid.specs.Floor.{Floor, HasForm};
ghost use Rattle.fleet_history.specs.History.{History};
ghost use Rattle.fleet_history.specs.Legal.{IsLegal};
ghost use Rattle.fleet_plans.specs.Valid.{place_at, HasSize, IsValidPlan};
ghost use Rattle.fleet_plans.specs.Text.{source_of, IsReadAs};
ghost use Rattle.fleet_convert.specs.History.{places_in};
ghost use Rattle.fleet_convert.specs.Cells.{cells_plan, last_place};
ghost use Rattle.fleet_convert.specs.Moves.{moves_plan};
ghost use Rattle.fleet_convert.specs.PlanTrace.{plan_trace};

/// The robots' cells in a legal history, at its opening and after each tick, are a valid plan.
pub fn legal_places_are_a_plan()
    ensures { (m : Floor) (h : History Global) → IsLegal m h → IsValidPlan m (places_in h) }
{}

/// A valid plan that is written as lines of cells and read again has the same placements; its goals are the robots'
/// last cells.
pub fn cells_read_back()
    ensures { (m : Floor) (places : List (List ℕ)) → HasForm m → HasSize places → IsValidPlan m places → IsReadAs m.width m.height (source_of m.width m.height (cells_plan m.width places)) (Some (last_place places)) places }
{}

/// A valid plan of one robot or more that is written as lines of moves and read again has the same placements.
pub fn moves_read_back()
    ensures { (m : Floor) (places : List (List ℕ)) → HasForm m → HasSize places → 1 ≤ length (place_at places 0) → IsValidPlan m places → IsReadAs m.width m.height (source_of m.width m.height (moves_plan m.width places)) None places }
{}

/// The placements of the trace of a plan are those of the plan.
pub fn plan_traces_have_places()
    ensures { (place : List ℕ) (places : List (List ℕ)) → places_in (plan_trace (place ∷ places)).history ≡ place ∷ places }
{}
