//! Callers of `fleet_plans`.

ghost use Rattle.std.specs.Prelude.{◌≡◌, ◌≢◌, ◌≤◌, ◌<◌, ◌^◌, ◌++◌, ◌∷◌, ℕ, List, [], OnOk, IfOk, IsTrue, false, length};
ghost use Rattle.fleet_grid.specs.Floor.{Floor};
ghost use Rattle.fleet_check.specs.declared.fault.StepFault.{StepFault};
ghost use Rattle.fleet_plans.specs.Answer.{IsPlanAnswer};
ghost use Rattle.fleet_plans.specs.declared.answer.PlanAnswer.{PlanAnswer as Answer};
ghost use Rattle.fleet_plans.specs.declared.report.PlanReport.{PlanReport};
ghost use Rattle.fleet_plans.specs.Judge.{HasJudged};
ghost use Rattle.fleet_plans.specs.Valid.{IsValidPlan, IsPlanFault};

use fleet_plans::{MOST_PLAN_BYTES, PlanAnswer, PlanJudge, check_texts};
use std::alloc::{AllocError, Global};

/// Whether the text of another planner's plan is free of conflicts on a map.
pub fn is_valid(alloc: Global, map: &[u8], plan: &[u8]) -> Result<bool, AllocError>
    requires { length plan.now ≤ MOST_PLAN_BYTES }
    ensures valid { IfOk result (λ valid. IsTrue valid → (report : PlanReport) × IsPlanAnswer map.now plan.now (PlanAnswer.Valid report)) }
    ensures invalid { IfOk result (λ valid. valid ≡ false → (answer : Answer) × IsPlanAnswer map.now plan.now answer × ((report : PlanReport) → answer ≢ PlanAnswer.Valid report)) }
{
    match check_texts(alloc, map, plan)? {
        PlanAnswer::Valid(_report) => Ok(true),
        PlanAnswer::Map(_fault) => Ok(false),
        PlanAnswer::Text(_fault) => Ok(false),
        PlanAnswer::Cut(_line) => Ok(false),
        PlanAnswer::Scenario(_line) => Ok(false),
        PlanAnswer::Json(_fault) => Ok(false),
        PlanAnswer::Head(_fault) => Ok(false),
        PlanAnswer::Invalid(_fault) => Ok(false),
        PlanAnswer::Goals { time: _, fault: _ } => Ok(false),
    }
}

/// Whether a planner's plan is still valid with the placement that it made for the next time.
pub fn is_still_valid(judge: &mut PlanJudge, next: &[u32]) -> Result<bool, AllocError>
    requires times { judge.old.count < 2 ^ 32 }
    requires robots { length next.now < 2 ^ 32 }
    ensures taken { (m : Floor) (places : List (List ℕ)) → HasJudged m places judge.old → OnOk result (HasJudged m (places ++ next.now ∷ []) judge.new) }
    ensures valid { (m : Floor) (places : List (List ℕ)) → HasJudged m places judge.old → IfOk result (λ valid. IsTrue valid → IsValidPlan m (places ++ next.now ∷ [])) }
    ensures faulty { (m : Floor) (places : List (List ℕ)) → HasJudged m places judge.old → IfOk result (λ valid. valid ≡ false → (time : ℕ) × (fault : StepFault) × IsPlanFault m (places ++ next.now ∷ []) time fault) }
{
    judge.take(next)?;
    match judge.fault() {
        None => Ok(true),
        Some(_fault) => Ok(false),
    }
}
