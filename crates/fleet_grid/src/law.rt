//! Laws of the floor graph, for the proofs of the crates above. The functions do nothing.

ghost use Rattle.std.specs.Prelude.{◌≡◌, ℕ, ◌+◌, ◌<◌, ◌≤◌, ◌↔◌, ◌⊎◌, true, List, length, Some, None};
ghost use Rattle.fleet_grid.specs.Floor.{Floor, HasForm, IsFloor, IsNeighbour, IsNeighbourIn};
ghost use Rattle.fleet_grid.specs.declared.dir.Dir.TheVariants.{East, South};
ghost use Rattle.fleet_grid.specs.Counts.{has_east, has_south};
ghost use Rattle.fleet_grid.specs.Walk.{Walks, AreJoined, AreApart, IsDistance};
ghost use Rattle.fleet_grid.specs.Distance.{is_neighbour, distance};

/// The test for neighbours passes exactly on neighbours, and an edge leads both ways.
pub fn edges_lead_both_ways()
    ensures test { (m : Floor) (a b : ℕ) → (is_neighbour m a b ≡ true) ↔ IsNeighbour m a b }
    ensures back { (m : Floor) (a b : ℕ) → IsNeighbour m a b → IsNeighbour m b a }
{}

/// Each edge is counted once: at its west end or at its north end.
pub fn edges_are_counted_once()
    ensures east { (m : Floor) (cell : ℕ) → (has_east m cell ≡ true) ↔ IsNeighbourIn m East cell (cell + 1) }
    ensures south { (m : Floor) (cell : ℕ) → (has_south m cell ≡ true) ↔ IsNeighbourIn m South cell (cell + m.width) }
{}

/// Two walks that meet make one walk, and a walk can be walked in reverse.
pub fn walks_join_and_turn()
    ensures same { (m : Floor) (a : ℕ) → AreJoined (IsNeighbour m) a a }
    ensures on { (m : Floor) (a b c : ℕ) → AreJoined (IsNeighbour m) a b → AreJoined (IsNeighbour m) b c → AreJoined (IsNeighbour m) a c }
    ensures back { (m : Floor) (a b : ℕ) → AreJoined (IsNeighbour m) a b → AreJoined (IsNeighbour m) b a }
{}

/// The distance as a function is the least number of edges of a walk, and none exactly where no walk leads; it is below
/// the number of cells.
pub fn distance_is_least_walk()
    ensures some { (m : Floor) (a b d : ℕ) → IsFloor m a → (distance m a b ≡ Some d) ↔ IsDistance (IsNeighbour m) a b d }
    ensures none { (m : Floor) (a b : ℕ) → IsFloor m a → (distance m a b ≡ None) ↔ AreApart (IsNeighbour m) a b }
    ensures below { (m : Floor) (a b d : ℕ) → IsFloor m a → IsDistance (IsNeighbour m) a b d → d < length m.letters }
{}

/// The distances of two neighbours to one cell differ by one at most.
pub fn distances_across_an_edge()
    ensures { (m : Floor) (a b g d e : ℕ) → IsNeighbour m a b → IsDistance (IsNeighbour m) a g d → IsDistance (IsNeighbour m) b g e → d ≤ e + 1 }
{}

/// The distances of two neighbours to one cell differ by exactly one.
pub fn neighbours_differ_by_one()
    ensures { (m : Floor) (a b g d e : ℕ) → HasForm m → IsNeighbour m a b → IsDistance (IsNeighbour m) a g d → IsDistance (IsNeighbour m) b g e → (d ≡ e + 1) ⊎ (e ≡ d + 1) }
{}
