//! A field that is searched only as far as it is asked.

ghost use Rattle.std.specs.Prelude.{◌≡◌, ◌≢◌, ℕ, ◌↔◌, IfOk, OnOk, IsTrue};
ghost use Rattle.fleet_grid.specs.Floor.{IsFloor, IsNeighbourIn};
ghost use Rattle.fleet_grid.specs.Ways.{AreNearer, AreOpen, IsLess};
ghost use Rattle.fleet_grid.specs.Distance.{distance};
ghost use Rattle.fleet_field.specs.Growing.{goal_of, Serves, IsSettled};

use crate::target::Target;
use fleet_grid::{Dir, Grid, Outlook, Ways};
use std::alloc::{AllocError, Allocator, Global};

/// The label of the cells to which the search comes in its first round: no step leads away from the target.
pub(crate) const FIRST: u8 = 3;

/// The ways from a map's cells that lead nearer to a goal. The search begins at the goal, and goes on toward one cell,
/// the target, whenever it is asked for a cell to which it has not come (Reverse Resumable A*: Silver, AIIDE 2005). One
/// byte for each cell of the map, and four for each cell next to those to which the search has come.
#[derive(Drop)]
pub struct GrowingField<A: Allocator + Copy = Global> {
    pub(crate) goal: u32,
    pub(crate) target: Target,
    pub(crate) mark: u8,
    pub(crate) labels: Vec<u8, A>,
    pub(crate) now: Vec<u32, A>,
    pub(crate) next: Vec<u32, A>,
    pub(crate) later: Vec<u32, A>,
}

/// Whether a label is that of cells to which the search came in another round.
#[inline(always)]
fn is_other(label: u8, here: u8) -> bool
    ensures { IsTrue result ↔ ((label ≢ 0) × (label ≢ here)) }
{
    label != 0 && label != here
}

impl<A: Allocator + Copy> GrowingField<A> {
    /// A field to a goal, a floor cell, of which nothing is searched yet. Whichever cell the target is, the field is
    /// right; the search for a cell near the target takes the least time. The only error is out of memory.
    pub fn new<B: Allocator + Copy>(
        alloc: A,
        grid: &Grid<B>,
        goal: u32,
        target: u32,
    ) -> Result<GrowingField<A>, AllocError>
        requires { IsFloor grid.now goal }
        ensures serves { IfOk result (λ field. Serves grid.now field) }
        ensures goal { IfOk result (λ field. goal_of field ≡ goal) }
    {
        let mut field = GrowingField {
            goal,
            target: Target::of(grid.width(), target),
            mark: FIRST,
            labels: Vec::new(alloc),
            now: Vec::new(alloc),
            next: Vec::new(alloc),
            later: Vec::new(alloc),
        };
        field.restart(grid, goal, target)?;
        Ok(field)
    }

    /// Makes the field one to another goal, as `new` does, in the memory that it has. After an error it is of no use.
    pub fn restart<B: Allocator + Copy>(
        &mut self,
        grid: &Grid<B>,
        goal: u32,
        target: u32,
    ) -> Result<(), AllocError>
        requires { IsFloor grid.now goal }
        ensures serves { OnOk result (Serves grid.now self.new) }
        ensures goal { OnOk result (goal_of self.new ≡ goal) }
    {
        self.goal = goal;
        self.target = Target::of(grid.width(), target);
        self.mark = FIRST;
        self.labels.clear();
        self.now.clear();
        self.next.clear();
        self.later.clear();
        self.labels.resize(grid.cell_count() as usize, 0)?;
        self.next.push(goal)?;
        Ok(())
    }

    /// Whether the neighbour in a direction is nearer to the goal than the cell, up to which the field is searched.
    #[inline(always)]
    fn is_nearer<B: Allocator + Copy>(
        &self,
        grid: &Grid<B>,
        exits: Ways,
        cell: u32,
        dir: Dir,
    ) -> bool
        requires serves { Serves grid.now self.now }
        requires settled { IsSettled grid.now self.now cell }
        requires floor { IsFloor grid.now cell }
        requires open { AreOpen grid.now cell exits.byte }
        ensures { (w : ℕ) → IsNeighbourIn grid.now dir cell w → IsTrue result ↔ IsLess (distance grid.now w (goal_of self.entry.now)) (distance grid.now cell (goal_of self.entry.now)) }
    {
        if !exits.has(dir) {
            return false;
        }
        let here = self.labels[cell as usize];
        if here == 0 {
            return false;
        }
        let there = self.labels[dir.across(grid.width(), cell) as usize];
        if self.target.is_toward(cell, dir) {
            is_other(there, here)
        } else {
            there == here
        }
    }

    /// The ways from a floor cell of the field's map: those that lead nearer to the goal, and all exits. The search
    /// goes on until they are known. The only error is out of memory; then it goes on from there when it is asked
    /// again.
    pub fn outlook<B: Allocator + Copy>(
        &mut self,
        grid: &Grid<B>,
        cell: u32,
    ) -> Result<Outlook, AllocError>
        requires serves { Serves grid.now self.old }
        requires floor { IsFloor grid.now cell }
        ensures nearer { IfOk result (λ outlook. AreNearer grid.now (λ c. distance grid.now c (goal_of self.old)) cell outlook.nearer.byte) }
        ensures exits { IfOk result (λ outlook. AreOpen grid.now cell outlook.exits.byte) }
        ensures serves { Serves grid.now self.new }
        ensures goal { goal_of self.new ≡ goal_of self.old }
    {
        self.reach(grid, cell)?;
        let exits = grid.exits(cell);
        let nearer = Ways::of(
            self.is_nearer(grid, exits, cell, Dir::North),
            self.is_nearer(grid, exits, cell, Dir::East),
            self.is_nearer(grid, exits, cell, Dir::South),
            self.is_nearer(grid, exits, cell, Dir::West),
        );
        Ok(Outlook { nearer, exits })
    }

    /// The goal.
    pub fn goal(&self) -> u32
        ensures { result ≡ goal_of self.entry.now }
    {
        self.goal
    }
}
