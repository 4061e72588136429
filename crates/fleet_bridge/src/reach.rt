//! How far the edges off a tree reach, and from which cell of each subtree the furthest one leads.

ghost use Rattle.std.specs.Prelude.{ℕ, ◌<◌, IfOk};
ghost use Rattle.fleet_bridge.specs.inside.Tree.{AreUnder};

use crate::numbers::{own_numbers, read, write};
use std::alloc::{AllocError, Allocator};

/// Gives the parent the cell of the child's subtree that reaches furthest, if it reaches as far as any of the parent's.
#[inline(always)]
fn hand_up<A: Allocator + Copy>(
    up: &Vec<u32, A>,
    far: &Vec<u32, A>,
    inner: &mut Vec<u32, A>,
    cell: u32,
)
    ensures { (n : ℕ) → cell < n → AreUnder up.now.items n inner.old.items → AreUnder up.now.items n inner.new.items }
{
    let parent = read(up, cell);
    if read(far, cell) == read(far, parent) {
        let found = read(inner, cell);
        write(inner, parent, found);
    }
}

/// Hands a cell of each subtree up to the parent: children come after their parents in the order, so this goes backward.
fn hand_all_up<A: Allocator + Copy>(
    up: &Vec<u32, A>,
    order: &Vec<u32, A>,
    far: &Vec<u32, A>,
    inner: &mut Vec<u32, A>,
    count: u32,
)
    requires { AreUnder up.now.items count inner.old.items }
    ensures { AreUnder up.now.items count inner.new.items }
{
    for cell in order.iter().rev() {
        if *cell < count {
            hand_up(up, far, inner, *cell);
        }
    }
}

/// For each cell a cell of its subtree that reaches as far as `far` has it.
#[tactic(auto, using(crate::proofs::Inner::under_own))]
pub(crate) fn furthest<A: Allocator + Copy>(
    alloc: A,
    up: &Vec<u32, A>,
    order: &Vec<u32, A>,
    far: &Vec<u32, A>,
    count: u32,
) -> Result<Vec<u32, A>, AllocError>
    ensures { IfOk result (λ inner. AreUnder up.now.items count inner.items) }
{
    let mut inner = own_numbers(alloc, count)?;
    hand_all_up(up, order, far, &mut inner, count);
    Ok(inner)
}
