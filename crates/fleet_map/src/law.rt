//! Laws of map text, for the readers and proofs of the crates above. The functions do nothing.

ghost use Rattle.std.specs.Prelude.{◌≡◌, ◌↔◌, ℕ, List, Ok, Err};
ghost use Rattle.fleet_map.specs.declared.fault.MapFault.{MapFault};
ghost use Rattle.fleet_map.specs.Text.{lines_of};
ghost use Rattle.fleet_map.specs.Shape.{IsMapText};
ghost use Rattle.fleet_map.specs.FirstFault.{IsFirstFault};
ghost use Rattle.fleet_map.specs.Grammar.{Map, map_of};

/// Reading the lines one by one gives a map exactly if the text has the shape of that map. If it ends at a fault, this
/// is the first one.
pub fn reading_is_by_shape()
    ensures read { (bytes : List ℕ) (m : Map) → (map_of bytes ≡ Ok m) ↔ IsMapText bytes m }
    ensures first { (bytes : List ℕ) (fault : MapFault) → map_of bytes ≡ Err fault → IsFirstFault (lines_of bytes) fault }
{}
