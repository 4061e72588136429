//! A search that leaves one edge out.

ghost use Rattle.std.specs.Prelude.{◌≡◌, ◌⊎◌, ℕ, ◌<◌, ◌≤◌, ◌↔◌, ◌*◌, length, vec_len, IfOk, MatchOption, IsTrue, Some, true, false};
ghost use Rattle.std.specs.Vec.{vec_capacity};
ghost use Rattle.fleet_grid.specs.Floor.{IsNeighbour, IsNeighbourIn};
ghost use Rattle.fleet_grid.specs.Walk.{AreJoined, IsBridge};
ghost use Rattle.fleet_bridge.specs.inside.First.{HasNoneBeside, IsBeside, HasNone, IsFirstFrom};
ghost use Rattle.fleet_bridge.specs.inside.Search.{NearWithout, IsMarked, IsFront, IsLater, IsReach};

use fleet_grid::{Dir, Grid};
use std::alloc::{AllocError, Allocator, Global};

/// Marks a cell, if it is not marked, and queues it.
#[tactic(auto, using(crate::proofs::Fronts::front_more, crate::proofs::Fronts::later_same, crate::proofs::Fronts::later_more))]
fn visit<A: Allocator + Copy, B: Allocator + Copy>(
    grid: &Grid<B>,
    from: u32,
    to: u32,
    seen: &mut Vec<bool, A>,
    queue: &mut Vec<u32, A>,
    cell: u32,
)
    requires inside { cell < length grid.now.letters }
    requires joined { AreJoined (NearWithout grid.now from to) from cell }
    requires front { IsFront (NearWithout grid.now from to) from (length grid.now.letters) seen.old.items queue.old.items }
    requires room { length grid.now.letters ≤ vec_capacity queue.old }
    ensures front { IsFront (NearWithout grid.now from to) from (length grid.now.letters) seen.new.items queue.new.items }
    ensures later { IsLater seen.old.items queue.old.items seen.new.items queue.new.items }
    ensures marked { IsMarked seen.new.items cell }
    ensures room { vec_capacity queue.new ≡ vec_capacity queue.old }
{
    if seen[cell as usize] {
        return;
    }
    queue.push_reserved(cell);
    seen[cell as usize] = true;
}

/// Whether the step crosses the edge of `a` and `b`.
pub(crate) fn is_across(a: u32, b: u32, cell: u32, next: u32) -> bool
    ensures yes { result ≡ true → ((cell ≡ a) × (next ≡ b)) ⊎ ((cell ≡ b) × (next ≡ a)) }
    ensures no { result ≡ false → (cell ≡ a → next ≡ b → ⊥) × (cell ≡ b → next ≡ a → ⊥) }
{
    (cell == a && next == b) || (cell == b && next == a)
}

/// Visits the neighbour in a direction, but not over the edge that is left out.
fn visit_beside<A: Allocator + Copy, B: Allocator + Copy>(
    grid: &Grid<B>,
    from: u32,
    to: u32,
    seen: &mut Vec<bool, A>,
    queue: &mut Vec<u32, A>,
    cell: u32,
    dir: Dir,
)
    requires reached { IsMarked seen.old.items cell }
    requires front { IsFront (NearWithout grid.now from to) from (length grid.now.letters) seen.old.items queue.old.items }
    requires room { length grid.now.letters ≤ vec_capacity queue.old }
    ensures front { IsFront (NearWithout grid.now from to) from (length grid.now.letters) seen.new.items queue.new.items }
    ensures later { IsLater seen.old.items queue.old.items seen.new.items queue.new.items }
    ensures marked { (d : ℕ) → IsNeighbourIn grid.now dir cell d → NearWithout grid.now from to cell d → IsMarked seen.new.items d }
    ensures room { vec_capacity queue.new ≡ vec_capacity queue.old }
{
    let Some(next) = grid.neighbour(cell, dir) else {
        return;
    };
    if is_across(from, to, cell, next) {
        return;
    }
    visit(grid, from, to, seen, queue, next);
}

/// Visits all neighbours.
fn visit_around<A: Allocator + Copy, B: Allocator + Copy>(
    grid: &Grid<B>,
    from: u32,
    to: u32,
    seen: &mut Vec<bool, A>,
    queue: &mut Vec<u32, A>,
    cell: u32,
)
    requires reached { IsMarked seen.old.items cell }
    requires front { IsFront (NearWithout grid.now from to) from (length grid.now.letters) seen.old.items queue.old.items }
    requires room { length grid.now.letters ≤ vec_capacity queue.old }
    ensures front { IsFront (NearWithout grid.now from to) from (length grid.now.letters) seen.new.items queue.new.items }
    ensures later { IsLater seen.old.items queue.old.items seen.new.items queue.new.items }
    ensures marked { (d : ℕ) → NearWithout grid.now from to cell d → IsMarked seen.new.items d }
    ensures room { vec_capacity queue.new ≡ vec_capacity queue.old }
{
    visit_beside(grid, from, to, seen, queue, cell, Dir::North);
    visit_beside(grid, from, to, seen, queue, cell, Dir::East);
    visit_beside(grid, from, to, seen, queue, cell, Dir::South);
    visit_beside(grid, from, to, seen, queue, cell, Dir::West);
}

/// Marks the cells that a walk from `from` reaches without crossing the edge.
#[tactic(auto, using(crate::proofs::Fronts::queue_le, crate::proofs::Fronts::reach, crate::proofs::Fronts::done_more))]
fn spread<A: Allocator + Copy, B: Allocator + Copy>(
    grid: &Grid<B>,
    from: u32,
    to: u32,
    seen: &mut Vec<bool, A>,
    queue: &mut Vec<u32, A>,
)
    requires inside { from < length grid.now.letters }
    requires front { IsFront (NearWithout grid.now from to) from (length grid.now.letters) seen.old.items queue.old.items }
    requires room { length grid.now.letters ≤ vec_capacity queue.old }
    ensures size { vec_len seen.new ≡ length grid.now.letters }
    ensures reach { IsReach (NearWithout grid.now from to) from seen.new.items }
{
    visit(grid, from, to, seen, queue, from);
    let mut head = 0;
    while head < queue.len() {
        let cell = queue[head];
        visit_around(grid, from, to, seen, queue, cell);
        head += 1;
    }
}

/// The cells that a walk from `from` reaches without crossing the edge.
pub(crate) fn search<A: Allocator + Copy, B: Allocator + Copy>(
    alloc: A,
    grid: &Grid<B>,
    from: u32,
    to: u32,
) -> Result<Vec<bool, A>, AllocError>
    requires { from < length grid.now.letters }
    ensures size { IfOk result (λ seen. vec_len seen ≡ length grid.now.letters) }
    ensures reach { IfOk result (λ seen. IsReach (NearWithout grid.now from to) from seen.items) }
{
    let count = grid.cell_count() as usize;
    let mut seen = vec![in alloc; false; count]?;
    let mut queue = Vec::with_capacity(alloc, count)?;
    spread(grid, from, to, &mut seen, &mut queue);
    Ok(seen)
}

/// Whether no walk joins the ends of the edge without crossing it.
pub fn is_bridge<A: Allocator + Copy, B: Allocator + Copy>(
    alloc: A,
    grid: &Grid<B>,
    a: u32,
    b: u32,
) -> Result<bool, AllocError>
    requires { IsNeighbour grid.now a b }
    ensures { IfOk result (λ yes. IsTrue yes ↔ IsBridge (IsNeighbour grid.now) a b) }
{
    let seen = search(alloc, grid, a, b)?;
    Ok(!seen[b as usize])
}

/// The far end of the edge in a direction, if a search shows that to be a bridge.
fn searched_beside<A: Allocator + Copy, B: Allocator + Copy>(
    alloc: A,
    grid: &Grid<B>,
    cell: u32,
    dir: Dir,
) -> Result<Option<u32>, AllocError>
    ensures { IfOk result (λ found. MatchOption found (HasNoneBeside grid.now cell dir) (IsBeside grid.now cell dir)) }
{
    let Some(next) = grid.neighbour(cell, dir) else {
        return Ok(None);
    };
    if is_bridge(alloc, grid, cell, next)? {
        return Ok(Some(next));
    }
    Ok(None)
}

/// The first bridge whose lower end is the cell, by a search for each of its edges.
#[tactic(auto, using(crate::proofs::Rounds::from_east, crate::proofs::Rounds::from_south, crate::proofs::Rounds::from_none))]
pub(crate) fn searched_from<A: Allocator + Copy, B: Allocator + Copy>(
    alloc: A,
    grid: &Grid<B>,
    cell: u32,
) -> Result<Option<u32>, AllocError>
    ensures { IfOk result (λ found. MatchOption found (HasNone grid.now cell) (IsFirstFrom grid.now cell)) }
{
    if let Some(east) = searched_beside(alloc, grid, cell, Dir::East)? {
        return Ok(Some(east));
    }
    if let Some(south) = searched_beside(alloc, grid, cell, Dir::South)? {
        return Ok(Some(south));
    }
    Ok(None)
}
