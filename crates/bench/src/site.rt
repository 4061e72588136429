//! The map of a measure, with random goals and starts in one part of it.

ghost use Rattle.std.specs.Prelude.{◌≡◌, ℕ, ◌+◌, ◌<◌, ◌≤◌, length, slice_get, slice_index, slice_set, IfOk, MatchOption, Some, true, false, vec_capacity, vec_len};
ghost use Rattle.fleet_grid.specs.Floor.{IsFloor};
ghost use Rattle.fleet_grid.specs.Step.{IsPlacement};
ghost use Rattle.fleet_field.specs.Field.{IsField};
ghost use Rattle.bench.specs.Fleet.{IsWithin, AreWithin, AreStarts, Serves};

use fleet_field::Compass;
use fleet_grid::Grid;
use std::alloc::{AllocError, Global};
use test_kit::Random;

/// A map, and the cells of the part of its first floor cell.
#[derive(Drop)]
pub(crate) struct Site {
    pub(crate) grid: Grid,
    /// The first floor cell.
    pub(crate) home: u32,
    /// The cells of its part, by number.
    pub(crate) cells: Vec<u32>,
    ghost on_floor: { IsFloor grid home },
    ghost some: { 0 < vec_len cells },
    ghost within: { AreWithin grid home cells.items },
}

impl Site {
    /// A map with its first part; `None` if the map has no floor.
    pub(crate) fn new(alloc: Global, grid: Grid) -> Result<Option<Site>, AllocError>
        ensures { IfOk result (λ site. MatchOption site ((c : ℕ) → IsFloor grid c → ⊥) (λ s. s.grid ≡ grid)) }
    {
        let Some(home) = first_floor(&grid) else {
            return Ok(None);
        };
        let cells = part_of(alloc, &grid, home)?;
        Ok(Some(Site { grid, home, cells }))
    }

    /// A cell of the part.
    pub(crate) fn cell(&self, random: &mut Random) -> u32
        ensures { IsWithin self.now.grid self.now.home result }
    {
        self.cells[random.below(self.cells.len())]
    }

    /// This many random cells of the part; a cell may be there more than once.
    pub(crate) fn goals(
        &self,
        alloc: Global,
        count: usize,
        random: &mut Random,
    ) -> Result<Vec<u32>, AllocError>
        ensures count { IfOk result (λ goals. vec_len goals ≡ count) }
        ensures within { IfOk result (λ goals. AreWithin self.now.grid self.now.home goals.items) }
    {
        let mut goals = Vec::with_capacity(alloc, count)?;
        for _ in 0..count {
            goals.push_reserved(self.cell(random));
        }
        Ok(goals)
    }

    /// The fields of this many goals in the part.
    pub(crate) fn fields(
        &self,
        alloc: Global,
        count: usize,
        random: &mut Random,
    ) -> Result<Vec<Compass>, AllocError>
        ensures count { IfOk result (λ fields. vec_len fields ≡ count) }
        ensures serves { IfOk result (λ fields. Serves self.now.grid self.now.home fields.items) }
    {
        let mut fields = Vec::with_capacity(alloc, count)?;
        for _ in 0..count {
            let goal = self.cell(random);
            let field = Compass::from(alloc, &self.grid, goal)?;
            fields.push_reserved(field);
        }
        Ok(fields)
    }

    /// This many distinct cells of the part, or fewer if they are hard to find.
    #[tactic(auto, using(crate::proofs::Throws::starts_none))]
    pub(crate) fn starts(
        &self,
        alloc: Global,
        count: usize,
        random: &mut Random,
    ) -> Result<Vec<u32>, AllocError>
        ensures count { IfOk result (λ starts. vec_len starts ≤ count) }
        ensures placed { IfOk result (λ starts. IsPlacement self.now.grid starts.items) }
        ensures within { IfOk result (λ starts. AreWithin self.now.grid self.now.home starts.items) }
    {
        let mut taken = vec![in alloc; false; self.grid.cell_count() as usize]?;
        let mut starts = Vec::with_capacity(alloc, count)?;
        for _ in 0..count.saturating_mul(16) {
            if starts.len() >= count {
                break;
            }
            let cell = self.cell(random);
            add_start(self, &mut taken, &mut starts, cell);
        }
        Ok(starts)
    }
}

/// The first floor cell.
fn first_floor(grid: &Grid) -> Option<u32>
    ensures { MatchOption result ((c : ℕ) → IsFloor grid.now c → ⊥) (IsFloor grid.now) }
{
    for cell in 0..grid.cell_count() {
        if grid.is_floor(cell) {
            return Some(cell);
        }
    }
    None
}

/// Whether the cell is floor and a walk leads from it to `home`.
fn is_within(grid: &Grid, home: u32, cell: u32) -> bool
    requires { IsFloor grid.now home }
    ensures { result ≡ true → IsWithin grid.now home cell }
{
    if !grid.is_floor(cell) {
        return false;
    }
    grid.same_part(cell, home)
}

/// Adds a cell that is in the part and is not `home`.
fn add_within(grid: &Grid, home: u32, cells: &mut Vec<u32>, cell: u32) -> Result<(), AllocError>
    requires home { IsFloor grid.now home }
    requires within { AreWithin grid.now home cells.old.items }
    ensures more { IfOk result (λ u. vec_len cells.old ≤ vec_len cells.new) }
    ensures within { IfOk result (λ u. AreWithin grid.now home cells.new.items) }
{
    if cell == home || !is_within(grid, home, cell) {
        return Ok(());
    }
    cells.push(cell)?;
    Ok(())
}

/// The cells of the part, with numbers from `home` on.
fn part_of(alloc: Global, grid: &Grid, home: u32) -> Result<Vec<u32>, AllocError>
    requires { IsFloor grid.now home }
    ensures some { IfOk result (λ cells. 0 < vec_len cells) }
    ensures within { IfOk result (λ cells. AreWithin grid.now home cells.items) }
{
    let mut cells = only_home(alloc, grid, home)?;
    for cell in home..grid.cell_count() {
        add_within(grid, home, &mut cells, cell)?;
    }
    Ok(cells)
}

/// A list that has only `home`.
#[tactic(auto, using(crate::proofs::Throws::home_within))]
fn only_home(alloc: Global, grid: &Grid, home: u32) -> Result<Vec<u32>, AllocError>
    requires { IsFloor grid.now home }
    ensures some { IfOk result (λ cells. 0 < vec_len cells) }
    ensures within { IfOk result (λ cells. AreWithin grid.now home cells.items) }
{
    Vec::from_slice(alloc, &[home])
}

/// Takes a cell that is not taken yet, and returns whether it did.
fn take(taken: &mut Vec<bool>, cell: u32) -> bool
    requires inside { cell < vec_len taken.old }
    ensures taken { taken.new.items ≡ slice_set taken.old.items cell true }
    ensures free { result ≡ true → slice_get taken.old.items cell ≡ Some false }
{
    let was_taken = taken[cell as usize];
    taken[cell as usize] = true;
    !was_taken
}

/// Adds a cell of the part to the starts, which have room for it, unless it is one of them.
fn add_start(site: &Site, taken: &mut Vec<bool>, starts: &mut Vec<u32>, cell: u32)
    requires within { IsWithin site.now.grid site.now.home cell }
    requires starts { AreStarts site.now.grid site.now.home taken.old.items starts.old.items }
    requires room { vec_len starts.old < vec_capacity starts.old }
    ensures few { vec_len starts.new ≤ vec_len starts.old + 1 }
    ensures room { vec_capacity starts.new ≡ vec_capacity starts.old }
    ensures starts { AreStarts site.now.grid site.now.home taken.new.items starts.new.items }
{
    if !take(taken, cell) {
        return;
    }
    starts.push_reserved(cell);
}
