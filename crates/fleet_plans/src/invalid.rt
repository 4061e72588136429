//! Whether a plan breaks a rule of steps.

ghost use Rattle.std.specs.Prelude.{◌≡◌};
ghost use Rattle.fleet_plans.specs.Answer.{is_invalid};

use crate::answer::PlanAnswer;

impl PlanAnswer {
    /// Whether a plan was read, and is not valid.
    pub fn is_invalid(self) -> bool
        ensures { result ≡ is_invalid self }
    {
        matches!(self, PlanAnswer::Invalid(_))
    }
}
