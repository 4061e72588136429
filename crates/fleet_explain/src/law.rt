//! What holds of the sentences.

ghost use Rattle.std.specs.Prelude.{◌≡◌};
ghost use Rattle.fleet_explain.specs.declared.explanation.Explanation.{Explanation};
ghost use Rattle.fleet_explain.specs.Sentences.{sentence};
ghost use Rattle.fleet_explain.specs.Places.{file_of, place_of, IsInRange};

/// A sentence tells where the fault is: explanations with one sentence are of one file, and of one line, row, column or
/// entry.
pub fn sentence_tells_place()
    ensures file { (e f : Explanation) → sentence e ≡ sentence f → file_of e ≡ file_of f }
    ensures place { (e f : Explanation) → IsInRange (place_of e) → IsInRange (place_of f) → sentence e ≡ sentence f → place_of e ≡ place_of f }
{}
