//! Which floor cells a walk joins: each part of the floor has one label, that of its first cell.

ghost use Rattle.std.specs.Prelude.{◌≡◌, ℕ, ◌+◌, ◌<◌, length, slice_index, IfOk, OnOk, IsTrue, ◌↔◌};
ghost use Rattle.fleet_grid.specs.Floor.{IsFloor, IsNeighbour, IsNeighbourIn};
ghost use Rattle.fleet_grid.specs.Walk.{AreJoined};
ghost use Rattle.fleet_grid.specs.inside.Parts.{AreParts, AreDone, HasLabel, IsSpread, Spreads};

use crate::cells::Cells;
use crate::dir::Dir;
use std::alloc::{AllocError, Allocator};

/// The label of a cell that has none.
const BARE: u32 = u32::MAX;

/// Labels the floor cell next to the one at `head` of the queue, unless it has its label already, and adds it to the
/// queue.
fn visit<A: Allocator + Copy>(
    cells: &Cells<A>,
    labels: &mut [u32],
    queue: &mut Vec<u32, A>,
    head: usize,
    label: u32,
    dir: Dir,
) -> Result<(), AllocError>
    requires bare { label < 4294967295 }
    requires head { head < length queue.old.items }
    requires spread { IsSpread cells.now label head labels.old queue.old.items }
    ensures ok { OnOk result (Spreads cells.now label head labels.old queue.old.items labels.new queue.new.items) }
    ensures same { OnOk result ((b : ℕ) → IsNeighbourIn cells.now dir (slice_index queue.old.items head) b → slice_index labels.new b ≡ label) }
{
    if let Some(next) = cells.neighbour(queue[head], dir) {
        let at = next as usize;
        if labels[at] == BARE {
            labels[at] = label;
            queue.push(next)?;
        }
    }
    Ok(())
}

/// Labels the floor cells next to the one that the queue holds at `head`.
fn around<A: Allocator + Copy>(
    cells: &Cells<A>,
    labels: &mut [u32],
    queue: &mut Vec<u32, A>,
    head: usize,
    label: u32,
) -> Result<(), AllocError>
    requires bare { label < 4294967295 }
    requires head { head < length queue.old.items }
    requires spread { IsSpread cells.now label head labels.old queue.old.items }
    ensures ok { OnOk result (Spreads cells.now label (head + 1) labels.old queue.old.items labels.new queue.new.items) }
{
    for dir in Dir::ALL {
        visit(cells, labels, queue, head, label, dir)?;
    }
    Ok(())
}

/// Gives the part of a floor cell that cell's number as its label. The queue is scratch space.
fn spread<A: Allocator + Copy>(
    cells: &Cells<A>,
    labels: &mut [u32],
    queue: &mut Vec<u32, A>,
    start: u32,
) -> Result<(), AllocError>
    requires floor { IsFloor cells.now start }
    requires bare { slice_index labels.old start ≡ 4294967295 }
    requires done { AreDone cells.now labels.old }
    ensures done { OnOk result (AreDone cells.now labels.new) }
    ensures kept { OnOk result ((c : ℕ) → HasLabel labels.old c → HasLabel labels.new c) }
    ensures labelled { OnOk result (HasLabel labels.new start) }
{
    let _count = cells.count();
    labels[start as usize] = start;
    queue.clear();
    queue.push(start)?;
    let mut head = 0;
    while head < queue.len() {
        around(cells, labels, queue, head, start)?;
        head += 1;
    }
    Ok(())
}

/// Gives a floor cell without a label, and with it its part, a label.
fn label_part<A: Allocator + Copy>(
    cells: &Cells<A>,
    labels: &mut [u32],
    queue: &mut Vec<u32, A>,
    cell: u32,
) -> Result<(), AllocError>
    requires done { AreDone cells.now labels.old }
    ensures done { OnOk result (AreDone cells.now labels.new) }
    ensures kept { OnOk result ((c : ℕ) → HasLabel labels.old c → HasLabel labels.new c) }
    ensures labelled { OnOk result (IsFloor cells.now cell → HasLabel labels.new cell) }
{
    if !cells.is_floor(cell) || labels[cell as usize] != BARE {
        return Ok(());
    }
    spread(cells, labels, queue, cell)
}

/// Gives each floor cell a label. Each cell is visited once.
fn label_all<A: Allocator + Copy>(
    cells: &Cells<A>,
    labels: &mut [u32],
    queue: &mut Vec<u32, A>,
) -> Result<(), AllocError>
    requires { AreDone cells.now labels.old }
    ensures { OnOk result (AreParts cells.now labels.new) }
{
    for cell in 0..cells.count() {
        label_part(cells, labels, queue, cell)?;
    }
    Ok(())
}

/// A label for each floor cell; two cells are in one part if they have the same label.
pub(crate) fn parts_of<A: Allocator + Copy>(
    alloc: A,
    cells: &Cells<A>,
) -> Result<Vec<u32, A>, AllocError>
    ensures { IfOk result (λ labels. AreParts cells.now labels.items) }
{
    let count = cells.count() as usize;
    let mut labels = vec![in alloc; BARE; count]?;
    let mut queue = Vec::with_capacity(alloc, count)?;
    label_all(cells, &mut labels, &mut queue)?;
    Ok(labels)
}

/// Whether two floor cells have one label, and so a walk joins them.
pub(crate) fn is_same_part<A: Allocator + Copy>(
    cells: &Cells<A>,
    labels: &[u32],
    a: u32,
    b: u32,
) -> bool
    requires parts { AreParts cells.now labels.now }
    requires a { IsFloor cells.now a }
    requires b { IsFloor cells.now b }
    ensures { IsTrue result ↔ AreJoined (IsNeighbour cells.now) a b }
{
    let _count = cells.count();
    labels[a as usize] == labels[b as usize]
}
