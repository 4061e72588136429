//! What a step's clauses say of the eldest robot, for the crates above and for readers. The functions do nothing.

ghost use Rattle.std.specs.Prelude.{◌≡◌, ◌≢◌, ◌↔◌, ℕ, ◌<◌, List, length, slice_index, Option, Some, None};
ghost use Rattle.fleet_grid.specs.Floor.{Floor, IsNeighbour};
ghost use Rattle.fleet_grid.specs.Step.{IsConflictFree};
ghost use Rattle.fleet_grid.specs.Walk.{HasSide, IsBridge, IsBridgeless, IsOnSide, IsRoomy};
ghost use Rattle.fleet_hooks.specs.declared.law.TieLaw.{TieLaw};
ghost use Rattle.fleet_pibt.specs.Advancing.{Advances, HasWayAhead, IsFullBeyond, IsOpenAhead};
ghost use Rattle.fleet_pibt.specs.Door.{IsPassage, KeepToPassages, HasPassage, IsFullWithDoor, HasWayWithDoor, IsSteppedWithDoor};
ghost use Rattle.fleet_pibt.specs.Eldest.{IsEldest};
ghost use Rattle.fleet_pibt.specs.Goals.{IsNearer};
ghost use Rattle.fleet_pibt.specs.Purposeful.{IsEmptyIn};
ghost use Rattle.fleet_pibt.specs.Stepped.{IsStepped};
ghost use Rattle.fleet_pibt.specs.declared.door.Door.{Door};

/// What is enough for a way ahead: that each nearer neighbour is empty or joined to the robot's cell by an edge that is
/// no bridge; that one nearer neighbour is not across a bridge with a robot on each cell beyond; that the goal is roomy
/// for all robots; that the map has no bridge.
pub fn robots_have_way_ahead()
    ensures open_edges { (m : Floor) (from : List ℕ) (goal cell : ℕ) → IsOpenAhead m from goal cell → HasWayAhead m from goal cell }
    ensures one { (m : Floor) (from : List ℕ) (goal cell w : ℕ) → IsNeighbour m cell w → IsNearer m goal w cell →
        (IsFullBeyond m from cell w → ⊥) → HasWayAhead m from goal cell }
    ensures roomy { (m : Floor) (from : List ℕ) (e goal : ℕ) → e < length from →
        IsRoomy (IsNeighbour m) (length from) goal → HasWayAhead m from goal (slice_index from e) }
    ensures bridgeless { (m : Floor) (from : List ℕ) (goal cell : ℕ) → IsBridgeless (IsNeighbour m) → HasWayAhead m from goal cell }
{}

/// The eldest robot of a step advances exactly if it has a way ahead. Without one no conflict-free step would let it
/// advance: a robot stands on each cell beyond the bridge, and none of them can leave.
pub fn eldest_advances_exactly()
    ensures exact { (m : Floor) (waits : List (Option ℕ)) (goals : ℕ → Option ℕ) (laws : List TieLaw) (from to : List ℕ) →
        length waits ≡ length from → IsStepped m waits goals laws from to →
        (e g : ℕ) → IsEldest waits e → goals e ≡ Some g →
        Advances m g (slice_index from e) (slice_index to e) ↔ HasWayAhead m from g (slice_index from e) }
    ensures only { (m : Floor) (from to : List ℕ) → IsConflictFree m from to → (e g : ℕ) → e < length from →
        Advances m g (slice_index from e) (slice_index to e) → HasWayAhead m from g (slice_index from e) }
    ensures shut { (m : Floor) (from to : List ℕ) → IsConflictFree m from to → (e w : ℕ) → e < length from →
        IsFullBeyond m from (slice_index from e) w → slice_index to e ≢ w }
{}

/// A step without a door promises what a step promises, and a robot has a way there exactly if it has a way ahead.
pub fn steps_without_door()
    ensures stepped { (m : Floor) (waits : List (Option ℕ)) (goals : ℕ → Option ℕ) (laws : List TieLaw) (from to : List ℕ) →
        IsSteppedWithDoor m None waits goals laws from to ↔ IsStepped m waits goals laws from to }
    ensures way { (m : Floor) (from : List ℕ) (goal cell : ℕ) → HasWayWithDoor m None from goal cell ↔ HasWayAhead m from goal cell }
{}

/// What is enough for a way on a map with a door. A door elsewhere shuts no way out of the robot's cell. A neighbour is not
/// full beyond if passages lead from it to an empty cell, or to as many cells as there are robots, or if its edge is no
/// bridge and the door is one. If the door is a bridge, one nearer neighbour that is not full beyond is enough. No
/// conflict-free step through passages takes a robot to a neighbour that is full beyond.
pub fn robots_have_way_with_door()
    ensures elsewhere { (m : Floor) (door : Door) (goal cell : ℕ) → door.from ≢ cell → HasPassage m (Some door) goal cell }
    ensures empty { (m : Floor) (door : Option Door) (from : List ℕ) (cell w c : ℕ) →
        IsOnSide (IsPassage m door) cell w c → IsEmptyIn from c → IsFullWithDoor m door from cell w → ⊥ }
    ensures roomy { (m : Floor) (door : Option Door) (from : List ℕ) (e w : ℕ) → e < length from →
        HasSide (IsPassage m door) (slice_index from e) w (length from) → IsFullWithDoor m door from (slice_index from e) w → ⊥ }
    ensures open_edge { (m : Floor) (door : Door) (from : List ℕ) (cell w : ℕ) → IsBridge (IsNeighbour m) door.from door.to →
        IsPassage m (Some door) cell w → (IsBridge (IsNeighbour m) cell w → ⊥) → IsFullWithDoor m (Some door) from cell w → ⊥ }
    ensures one { (m : Floor) (door : Door) (from : List ℕ) (goal cell w : ℕ) → IsBridge (IsNeighbour m) door.from door.to →
        IsPassage m (Some door) cell w → IsNearer m goal w cell → (IsFullWithDoor m (Some door) from cell w → ⊥) →
        HasWayWithDoor m (Some door) from goal cell }
    ensures shut { (m : Floor) (door : Option Door) (from to : List ℕ) → IsConflictFree m from to →
        KeepToPassages m door from to →
        (e w : ℕ) → e < length from → IsFullWithDoor m door from (slice_index from e) w → slice_index to e ≢ w }
{}
