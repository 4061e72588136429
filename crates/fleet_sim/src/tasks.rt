//! Errands that are handed out in turn.

ghost use Rattle.std.specs.Prelude.{IfOk, IfSome};
ghost use Rattle.fleet_grid.specs.Floor.{IsFloor};

use fleet_grid::Grid;
use fleet_map::text::{first_line, number_up_to};
use std::alloc::{AllocError, Global};

/// Cells to which robots are sent in turn: after the last from the first on again.
#[derive(Drop)]
pub(crate) struct Tasks {
    cells: Vec<u32>,
    next: usize,
}

impl Tasks {
    /// The cells of a list.
    pub(crate) fn of(alloc: Global, cells: &[u32]) -> Result<Tasks, AllocError> {
        let cells = Vec::from_slice(alloc, cells)?;
        Ok(Tasks { cells, next: 0 })
    }

    /// The next cell; `None` if there is none at all.
    fn take(&mut self) -> Option<u32> {
        let cell = self.cells.get(self.next).copied();
        self.next = if self.next < self.cells.len() {
            self.next + 1
        } else {
            0
        };
        if self.next == self.cells.len() {
            self.next = 0;
        }
        cell
    }

    /// The next cell to which a robot on its own cell may go: another one, in its part, to which errands are allowed.
    /// Those before it are passed over. `None` if there is none.
    pub(crate) fn next(&mut self, grid: &Grid, allowed: &[bool], own: u32) -> Option<u32> {
        for _ in 0..self.cells.len() {
            let cell = self.take()?;
            if cell != own && allowed.get(cell as usize) == Some(&true) && joins(grid, own, cell) {
                return Some(cell);
            }
        }
        None
    }
}

/// Whether a walk joins two cells.
fn joins(grid: &Grid, a: u32, b: u32) -> bool {
    grid.is_floor(a) && grid.is_floor(b) && grid.same_part(a, b)
}

/// Whether the line says something: it is not empty, and no remark.
fn is_said(line: &[u8]) -> bool {
    match line.first() {
        Some(byte) => *byte != b'#',
        None => false,
    }
}

/// The floor cell of this number.
fn floor_cell(grid: &Grid, line: &[u8]) -> Option<u32>
    ensures { IfSome result (IsFloor grid.now) }
{
    let cell = number_up_to(line, u64::from(grid.cell_count()))? as u32;
    if grid.is_floor(cell) {
        Some(cell)
    } else {
        None
    }
}

/// Adds a cell.
fn add(cells: &mut Vec<u32>, cell: u32) -> Result<(), AllocError> {
    cells.push(cell)?;
    Ok(())
}

/// Why a text is no list of tasks.
#[derive(Clone, Copy, Debug, PartialEq, Eq)]
pub enum TasksFault {
    /// The line of this number, counted from 1, says neither how many tasks there are, which comes first, nor a floor cell;
    /// or there are fewer than were said, and it is the line after the last.
    Line(u64),
    NoMemory,
}

impl From<AllocError> for TasksFault {
    ghost use Rattle.std.specs.Prelude.{◌≡◌};
    ghost use Rattle.fleet_sim.specs.declared.tasks.TasksFault.TheVariants.{NoMemory};

    ghost from_gives = { λ _ e. e ≡ NoMemory };

    fn from(_error: AllocError) -> TasksFault {
        TasksFault::NoMemory
    }
}

/// The tasks of a list of the League of Robot Runners: a line with their number, then a line with the number of a floor
/// cell for each. Empty lines, and lines that begin with `#`, say nothing.
pub fn read_tasks(alloc: Global, grid: &Grid, text: &[u8]) -> Result<Vec<u32>, TasksFault> {
    let mut cells = Vec::new(alloc);
    let mut wanted = None;
    let mut number = 1u64;
    let mut rest = text;
    while let Some((line, after)) = first_line(rest) {
        match wanted {
            _ if !is_said(line) => {}
            None => match number_up_to(line, 1_073_741_824) {
                Some(count) => wanted = Some(count),
                None => return Err(TasksFault::Line(number)),
            },
            Some(_) => match floor_cell(grid, line) {
                Some(cell) => add(&mut cells, cell)?,
                None => return Err(TasksFault::Line(number)),
            },
        }
        number = number.saturating_add(1);
        rest = after;
    }
    if wanted == Some(cells.len() as u64) {
        Ok(cells)
    } else {
        Err(TasksFault::Line(number))
    }
}
