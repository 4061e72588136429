//! Laws of script text, for the readers and proofs of the crates above. The functions do nothing.

ghost use Rattle.std.specs.Prelude.{◌≡◌, ◌↔◌, ℕ, List, Ok, Err};
ghost use Rattle.fleet_script.specs.declared.script.ScriptFault.{ScriptFault};
ghost use Rattle.fleet_script.specs.Grammar.{IsScript, IsFirstFault, lines_in};
ghost use Rattle.fleet_script.specs.Script.{Plan, script_of};

/// Reading the lines one by one gives a script exactly if the grammar does, and ends at a line exactly if that line is
/// the first at fault.
pub fn reading_is_by_grammar()
    ensures read { (bytes : List ℕ) (p : Plan) → (script_of bytes ≡ Ok p) ↔ IsScript (lines_in bytes) p }
    ensures first { (bytes : List ℕ) (line : ℕ) → (script_of bytes ≡ Err line) ↔ IsFirstFault (lines_in bytes) (ScriptFault.Line line) }
{}
