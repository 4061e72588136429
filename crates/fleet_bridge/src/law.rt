//! Laws of rooms, for the proofs of the crates above. The functions do nothing.

ghost use Rattle.std.specs.Prelude.{◌≡◌, ℕ, ◌≤◌, slice_index};
ghost use Rattle.fleet_grid.specs.Floor.{Floor, IsFloor, IsNeighbour};
ghost use Rattle.fleet_grid.specs.Walk.{AreJoined, IsBridge, IsOnSide, IsRoomy};
ghost use Rattle.fleet_bridge.specs.Rooms.{AreInBlock, AreRoomsBy, IsCore, IsRoom, IsServed};

/// A cell that is in a core for n robots serves its part: the cells of its block are roomy for n robots, and each side
/// around the block is a room for n robots.
pub fn cores_serve()
    ensures block { (m : Floor) (n k c : ℕ) → IsCore (IsNeighbour m) n k → AreInBlock (IsNeighbour m) k c → IsRoomy (IsNeighbour m) n c }
    ensures room { (m : Floor) (n k a b : ℕ) → IsCore (IsNeighbour m) n k → IsBridge (IsNeighbour m) a b → AreInBlock (IsNeighbour m) k a → IsRoom (IsNeighbour m) n a b }
{}

/// Up to the capacity of its part each cell is served: those in the core's block are roomy, and the others are in their
/// rooms.
pub fn rooms_serve()
    ensures core { (m : Floor) (core door mouth size capacity : ℕ → ℕ) → AreRoomsBy m core door mouth size capacity → (c n : ℕ) → IsFloor m c → n ≤ capacity (core c) → door c ≡ core c → IsRoomy (IsNeighbour m) n c }
    ensures room { (m : Floor) (core door mouth size capacity : ℕ → ℕ) → AreRoomsBy m core door mouth size capacity → (c n : ℕ) → IsFloor m c → n ≤ capacity (core c) → (door c ≡ core c → ⊥) → IsRoom (IsNeighbour m) n (mouth (door c)) (door c) }
    ensures inside { (m : Floor) (core door mouth size capacity : ℕ → ℕ) → AreRoomsBy m core door mouth size capacity → (c : ℕ) → IsFloor m c → (door c ≡ core c → ⊥) → IsOnSide (IsNeighbour m) (mouth (door c)) (door c) c }
    ensures served { (m : Floor) (core door mouth size capacity : ℕ → ℕ) → AreRoomsBy m core door mouth size capacity → (c n : ℕ) → IsFloor m c → n ≤ capacity (core c) → IsServed (IsNeighbour m) n c }
{}
